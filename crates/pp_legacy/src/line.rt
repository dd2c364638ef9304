//! A line of the text of mapped regions.
ghost use Rattle.std.specs.Prelude.{◌≡◌, ℕ, List, ◌<◌, ◌≤◌, ◌==◌, ◌^◌, not, length, take, drop, option_map};
ghost use Rattle.std.specs.List.{prefix_len};
ghost use Rattle.std.specs.Char.{is_ascii_hexdigit, digit_value};
ghost use Rattle.std.specs.Str.Parse.{AllDigits, digits_value};
ghost use Rattle.pp_legacy.specs.Steps.{FindsSeen};
ghost use Rattle.pp_legacy.specs.Regions.{is_space, hex_in, behind_dash, behind_spaces, behind_gap, spaced_field_in, permissions_in, range_in, offset_and_path_in, region_in, is_code};
ghost use Rattle.pp_legacy.specs.Seen.{region_of, span_of};

/// A mapped region, as its line tells it.
#[derive(Drop)]
pub struct Region<'a> {
    /// The first address.
    pub start: u64,
    /// The first address behind the region.
    pub limit: u64,
    /// Four bytes: `r`, `w`, `x` where data is read, written, run, and `p` or `s`.
    pub permissions: &'a [u8],
    /// The place in the file.
    pub offset: u64,
    /// The file, or nothing.
    pub path: &'a [u8],
}

impl<'a> Region<'a> {
    /// Whether it has addresses, and code there may run.
    pub fn is_code(&self) -> bool
        ensures { result ≡ is_code (region_of self.now) }
    {
        self.permissions.get(2) == Some(&b'x') && self.start < self.limit
    }
}

/// The region that a line tells of, as `00400000-00500000 r-xp 00000000 08:01 131 /bin/prog`: addresses, permissions,
/// the place in the file, device, inode, and a path or none.
#[tactic(auto, unfolding(crate::specs::Regions::region_in))]
pub fn region_in(line: &[u8]) -> Option<Region<'_>>
    ensures { FindsSeen region_of result (region_in line.now) }
{
    let (range, rest) = range_in(line)?;
    let (offset, path) = source_in(rest)?;
    Some(Region {
        start: range.start,
        limit: range.limit,
        permissions: range.permissions,
        offset,
        path,
    })
}

// The addresses and the permissions.
#[derive(Drop)]
struct Span<'a> {
    start: u64,
    limit: u64,
    permissions: &'a [u8],
}

#[tactic(auto, unfolding(crate::specs::Regions::range_in))]
fn range_in(line: &[u8]) -> Option<(Span<'_>, &[u8])>
    ensures { FindsSeen (λ p. (span_of p.0, p.1.now)) result (range_in line.now) }
{
    let (start, rest) = hex_in(line)?;
    let (limit, rest) = hex_in(behind_dash(rest)?)?;
    let (permissions, rest) = permissions_in(behind_gap(rest)?)?;
    Some((
        Span {
            start,
            limit,
            permissions,
        },
        rest,
    ))
}

// The place in the file, and the path. The device and the inode may be any fields.
#[tactic(auto, unfolding(crate::specs::Regions::offset_and_path_in))]
fn source_in(line: &[u8]) -> Option<(u64, &[u8])>
    ensures { FindsSeen (λ p. (p.0, p.1.now)) result (offset_and_path_in line.now) }
{
    let (offset, rest) = hex_in(behind_gap(line)?)?;
    let (_, rest) = field_in(behind_gap(rest)?)?;
    let (_, rest) = field_in(behind_gap(rest)?)?;
    Some((offset, behind_spaces(rest)))
}

// The hexadecimal number at the front, of 1 to 16 digits.
#[tactic(auto, using(crate::proofs::HexLemmas::all_hex), unfolding(crate::specs::Regions::hex_in))]
fn hex_in(line: &[u8]) -> Option<(u64, &[u8])>
    ensures { FindsSeen (λ p. (p.0, p.1.now)) result (hex_in line.now) }
{
    let (digits, rest) = line.split_at(digits_len(line));
    if 1 <= digits.len() && digits.len() <= 16 {
        Some((number_of(digits), rest))
    } else {
        None
    }
}

// How many hexadecimal digits stand at the front.
fn digits_len(line: &[u8]) -> usize
    ensures value { result ≡ prefix_len is_ascii_hexdigit line.now }
    ensures within { result ≤ length line.now }
{
    line.iter().take_while(|b| b.is_ascii_hexdigit()).count()
}

// The number that digits spell.
fn number_of(digits: &[u8]) -> u64
    requires digits { AllDigits 16 digits.now }
    requires few { length digits.now ≤ 16 }
    ensures { result ≡ digits_value 16 digits.now }
{
    let mut number = 0;
    for digit in digits {
        number = number * 16 + u64::from(digit_of(*digit));
    }
    number
}

// The value of a digit.
fn digit_of(digit: u8) -> u8
    requires { digit_value digit < 16 }
    ensures { result ≡ digit_value digit }
{
    match digit {
        b'0'..=b'9' => digit - b'0',
        b'A'..=b'F' => digit - b'A' + 10,
        b'a'..=b'f' => digit - b'a' + 10,
        _ => 0,
    }
}

#[tactic(auto, unfolding(crate::specs::Regions::behind_dash))]
fn behind_dash(line: &[u8]) -> Option<&[u8]>
    ensures { FindsSeen (λ rest. rest.now) result (behind_dash line.now) }
{
    match line {
        [b'-', rest @ ..] => Some(rest),
        _ => None,
    }
}

#[tactic(auto, unfolding(crate::specs::Regions::behind_gap))]
fn behind_gap(line: &[u8]) -> Option<&[u8]>
    ensures { FindsSeen (λ rest. rest.now) result (behind_gap line.now) }
{
    match line {
        [b' ', ..] => Some(behind_spaces(line)),
        _ => None,
    }
}

fn behind_spaces(line: &[u8]) -> &[u8]
    ensures { result.now ≡ behind_spaces line.now }
{
    line.split_at(spaces_len(line)).1
}

#[tactic(auto, unfolding(crate::specs::Regions::permissions_in))]
fn permissions_in(line: &[u8]) -> Option<(&[u8], &[u8])>
    ensures { FindsSeen (λ p. (p.0.now, p.1.now)) result (permissions_in line.now) }
{
    let (field, rest) = field_in(line)?;
    if field.len() == 4 {
        Some((field, rest))
    } else {
        None
    }
}

#[tactic(auto, unfolding(crate::specs::Regions::spaced_field_in))]
fn field_in(line: &[u8]) -> Option<(&[u8], &[u8])>
    ensures { FindsSeen (λ p. (p.0.now, p.1.now)) result (spaced_field_in line.now) }
{
    let (field, rest) = line.split_at(field_len(line));
    if field.is_empty() {
        None
    } else {
        Some((field, rest))
    }
}

// How many bytes stand in front of the first space.
fn field_len(line: &[u8]) -> usize
    ensures value { result ≡ prefix_len (λ b. not (is_space b)) line.now }
    ensures within { result ≤ length line.now }
{
    line.iter().take_while(|b| **b != b' ').count()
}

// How many spaces stand at the front.
fn spaces_len(line: &[u8]) -> usize
    ensures value { result ≡ prefix_len is_space line.now }
    ensures within { result ≤ length line.now }
{
    line.iter().take_while(|b| **b == b' ').count()
}
