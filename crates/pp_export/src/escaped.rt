//! Names in the texts of other programs.
ghost use Rattle.std.specs.Prelude.{◌≡◌, ◌++◌, IfOk};
ghost use Rattle.pp_export.specs.Escaped.{escaped_name, frame_byte};

use pp_base::Memory;

/// Appends the name as it stands in a path.
pub fn put_frame_name(name: &[u8], text: &mut Vec<u8>) -> Result<(), Memory>
    ensures { IfOk result (λ _. text.new.items ≡ text.old.items ++ escaped_name name.now) }
{
    let start = text.len();
    text.extend_from_slice(name)?;
    write_frame_bytes(&mut text[start..]);
    Ok(())
}

// Writes over each byte what stands for it in a path.
fn write_frame_bytes(name: &mut [u8])
    ensures { name.new ≡ escaped_name name.old }
{
    for byte in name.iter_mut() {
        *byte = frame_byte(*byte);
    }
}

// What stands for the byte of a name in a path.
fn frame_byte(byte: u8) -> u8
    ensures { result ≡ frame_byte byte }
{
    match byte {
        b';' => b':',
        b'\n' | b'\r' => b' ',
        _ => byte,
    }
}
