//! Commands on a set: bindings, bytes, windows and moves, with faults 54 and 55.

use crate::fault_line::FaultLine;
use crate::numbers::number_of;
use crate::sets::{SetCase, read_set, set_of};
use crate::spaces::both::{Both, first_error, opened, print_error};
use pe_space::{Command, Policy, Reply, SetEntry, Space, run};
use std::alloc::Global;
use std::rt::Files;

/// The address and the length of a window, separated by `:`.
fn window_of(word: &str) -> Option<(u64, u32)> {
    let (address, count) = word.split_once(":")?;
    Some((number_of(address)?, u32::from_str_radix(count, 10).ok()?))
}

/// The image and the base of a move, separated by `:`.
pub(crate) fn move_of(word: &str) -> Option<(u16, u64)> {
    let (image, base) = word.split_once(":")?;
    Some((u16::from_str_radix(image, 10).ok()?, number_of(base)?))
}

/// The command of a word.
fn command_of(word: &str) -> Option<Command> {
    let (kind, rest) = word.split_once(":")?;
    match kind {
        "byte" => Some(Command::Byte(number_of(rest)?)),
        "base" => Some(Command::Base(u16::from_str_radix(rest, 10).ok()?)),
        "move" => {
            let (image, base) = move_of(rest)?;
            Some(Command::Move { image, base })
        }
        "window" => {
            let (address, count) = window_of(rest)?;
            Some(Command::Window { address, count })
        }
        _ => None,
    }
}

/// The commands of words.
fn commands_of(alloc: Global, words: &[&str]) -> Option<Vec<Command>> {
    let mut commands = Vec::new(alloc);
    for word in words {
        commands.push(command_of(word)?).ok()?;
    }
    Some(commands)
}

/// Adds the line of a reply.
fn push_reply(text: &mut String, reply: &Reply<Global>) -> Option<()> {
    match reply {
        Reply::Byte(Some(byte)) => writeln!(text, "{byte:02x}").ok(),
        Reply::Base(Some(base)) => writeln!(text, "{base:#x}").ok(),
        Reply::Byte(None) | Reply::Base(None) => writeln!(text, "none").ok(),
        Reply::Bytes(bytes) => {
            for byte in bytes.as_slice() {
                write!(text, "{byte:02x}").ok()?;
            }
            writeln!(text, "").ok()
        }
        Reply::Moved(moved) => {
            writeln!(text, "moved fields {} slots {}", moved.fields, moved.slots).ok()
        }
        Reply::Refused(fault) => writeln!(text, "{}", FaultLine(*fault)).ok(),
    }
}

/// The lines of the replies of a space to commands.
fn replies_of<S: Space>(alloc: Global, space: &mut S, commands: &[Command]) -> Option<String> {
    let Ok(replies) = run(alloc, space, commands) else {
        return None;
    };
    let mut text = String::new(alloc);
    for reply in &replies {
        push_reply(&mut text, reply)?;
    }
    Some(text)
}

/// Prints a string, if the other is equal.
fn print_same<R: Print>(rt: &R, text: &str, other: &str) -> Option<()> {
    if text != other {
        return None;
    }
    print!(rt; "{text}").ok()
}

/// Prints the replies of a space to commands, if they are equal to `text`.
fn print_replies_of<R: Print + AllocGlobal, S: Space>(
    rt: &R,
    space: &mut S,
    commands: &[Command],
    text: &str,
) -> Option<()> {
    let other = replies_of(rt.alloc(), space, commands)?;
    print_same(rt, text, other.as_str())
}

/// Prints the replies of both spaces to commands, if they are equal.
fn print_both<R: Print + AllocGlobal>(rt: &R, both: &mut Both, commands: &[Command]) -> Option<()> {
    let text = replies_of(rt.alloc(), &mut both.mapped, commands)?;
    print_replies_of(rt, &mut both.filed, commands, text.as_str())
}

/// Prints the replies of both spaces of a set without a fault.
fn print_commands<R: Print + AllocGlobal>(
    rt: &R,
    set: &[SetEntry],
    policy: Policy,
    commands: &[Command],
) -> Option<()> {
    let mut both = opened(rt.alloc(), set, policy)?;
    print_both(rt, &mut both, commands)
}

/// Prints that a set has no fault, and the replies to commands.
fn print_accepted<R: Print + AllocGlobal>(
    rt: &R,
    set: &[SetEntry],
    policy: Policy,
    words: &[&str],
) -> Option<()> {
    println!(rt; "no fault").ok()?;
    let commands = commands_of(rt.alloc(), words)?;
    print_commands(rt, set, policy, &commands)
}

/// Prints the first error of a set, or the replies to commands.
pub(crate) fn print_answers<R: Print + AllocGlobal>(
    rt: &R,
    set: &[SetEntry],
    policy: Policy,
    words: &[&str],
) -> Option<()> {
    match first_error(rt.alloc(), set, policy)? {
        Some(error) => print_error(rt, error),
        None => print_accepted(rt, set, policy, words),
    }
}

/// Prints the first error of the set of a case, or the replies to its commands.
fn print_case<R: Print + AllocGlobal>(rt: &R, case: &SetCase) -> Option<()> {
    let set = set_of(rt.alloc(), &case.members)?;
    print_answers(rt, &set, case.policy, &case.others)
}

/// Prints the first error of the set in the words, or the replies to the commands in them.
pub(crate) fn print_replies<R: Files + Print + AllocGlobal>(rt: &R, words: &str) -> Option<()> {
    let case = read_set(rt, words)?;
    print_case(rt, &case)
}

/// The size of the buffer.
const BUFFER: usize = 4;

/// The buffer after a call of `window`, and whether the call succeeded.
fn buffer_of<S: Space>(space: &S, (address, count): (u64, u32)) -> Option<(bool, [u8; BUFFER])> {
    let mut buffer = [0xee; BUFFER];
    let is_granted = space
        .window(address, buffer.get_mut(..count as usize)?)
        .is_ok();
    Some((is_granted, buffer))
}

/// Prints the buffer of a window of both spaces, if it is the same.
pub(crate) fn print_buffer<R: Print>(rt: &R, both: &Both, word: &str) -> Option<()> {
    let window = window_of(word)?;
    let (is_granted, buffer) = buffer_of(&both.mapped, window)?;
    if buffer_of(&both.filed, window)? != (is_granted, buffer) {
        return None;
    }
    println!(rt; "{is_granted} {:08x}", u32::from_be_bytes(buffer)).ok()
}
