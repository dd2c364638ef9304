//! A profile that grows by names.
ghost use Rattle.std.specs.Prelude.{◌≡◌, ◌++◌, ◌+◌, ◌<◌, ◌^◌, length, pos, IfOk, OnOk};
ghost use Rattle.pp_pseudo.specs.Grown.{grown, name_id, name_function, name_functions};

use crate::names::FrameNames;
use pp_base::{List, Memory, Text};
use pp_model::{Function, Profile};
use pp_restack::no_items;
use std::alloc::Global;

/// The profile with the names as texts behind its own, and with a function of each.
pub fn grow(alloc: Global, mut p: Profile, names: FrameNames) -> Result<Profile, Memory>
    ensures { IfOk result (λ q. q ≡ grown p names) }
{
    let functions = named_functions(alloc, &p, names.len())?;
    p.function.extend(functions.as_slice())?;
    push_texts(names.into_texts(alloc)?, &mut p.text)?;
    Ok(p)
}

// Adds the texts.
fn push_texts(texts: List<Text>, all: &mut List<Text>) -> Result<(), Memory>
    ensures { OnOk result (all.new ≡ all.old ++ texts) }
{
    for text in texts.into_vec() {
        all.push(text)?;
    }
    Ok(())
}

// The functions of `count` names.
fn named_functions(alloc: Global, p: &Profile, count: u64) -> Result<List<Function>, Memory>
    requires { count < 2 ^ 60 }
    ensures { IfOk result (λ functions. functions ≡ name_functions p.now count) }
{
    let mut functions = no_items(alloc, count as usize)?;
    for number in 0..count {
        functions.push(named_function(p, number))?;
    }
    Ok(functions)
}

// The function of the name with the number.
fn named_function(p: &Profile, number: u64) -> Function
    requires { number < 2 ^ 60 }
    ensures { result ≡ name_function p.now number }
{
    Function {
        id: name_id(p, number),
        name: name_index(p, number),
        system_name: 0,
        filename: 0,
        start_line: 0,
    }
}

/// The id of the function of the name with the number.
pub fn name_id(p: &Profile, number: u64) -> u64
    requires { number < 2 ^ 60 }
    ensures { result ≡ name_id p.now number }
{
    p.function.as_slice().len() as u64 + number + 1
}

// The index of the text of the name with the number.
fn name_index(p: &Profile, number: u64) -> i64
    requires { number < 2 ^ 60 }
    ensures { result ≡ pos (length p.now.text + number) }
{
    (p.text.as_slice().len() as u64 + number) as i64
}
