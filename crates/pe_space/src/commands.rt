//! `run`: carries out a list of commands on a space, and returns their replies.

ghost use Rattle.std.specs.Prelude.{◌≡◌, ◌<◌, length, take, IsOk, IfOk, IfErr, OnOk, OnErr};
ghost use Rattle.pe_space.specs.Commands.{reply_to, after, replies_of, after_all};

use crate::reply::{Bytes, Command, Reply, Stopped};
use crate::space::Space;
use std::alloc::{AllocError, Allocator};

/// Carries out one command, for whose reply room has been allocated.
fn carry_out<A: Allocator + Copy, S: Space>(
    alloc: A,
    space: &mut S,
    command: Command,
) -> Result<Reply<A>, AllocError>
    ensures reply { IfOk result (λ reply. reply ≡ reply_to command (S.content space.old)) }
    ensures content { OnOk result (S.content space.new ≡ after command (S.content space.old)) }
    ensures err { OnErr result (S.content space.new ≡ S.content space.old) }
{
    match command {
        Command::Byte(address) => Ok(Reply::Byte(space.byte(address))),
        Command::Window { address, count } => {
            let mut bytes = vec![in alloc; 0; count as usize]?;
            match space.window(address, bytes.as_mut_slice()) {
                Ok(()) => Ok(Reply::Bytes(Bytes::new(bytes))),
                Err(fault) => Ok(Reply::Refused(fault)),
            }
        }
        Command::Move { image, base } => match space.move_image(image, base) {
            Ok(counts) => Ok(Reply::Moved(counts)),
            Err(fault) => Ok(Reply::Refused(fault)),
        },
        Command::Base(image) => Ok(Reply::Base(space.base_of(image))),
    }
}

/// Carries out commands in order and returns their replies, which depend on the content of the space and not on how it is stored.
///
/// Room for a reply and its bytes is allocated before its command is carried out, so that no command is left half reported. If an
/// allocation fails, the error is [`Stopped`], and exactly the commands that it counts were carried out. It never comes for an
/// empty list.
pub fn run<A: Allocator + Copy, S: Space>(
    alloc: A,
    space: &mut S,
    commands: &[Command],
) -> Result<Vec<Reply<A>, A>, Stopped>
    ensures replies { IfOk result (λ replies. replies.items ≡ replies_of commands.now (S.content space.old)) }
    ensures content { OnOk result (S.content space.new ≡ after_all commands.now (S.content space.old)) }
    ensures stopped { IfErr result (λ stopped. (stopped.done < length commands.now) × (S.content space.new ≡ after_all (take stopped.done commands.now) (S.content space.old))) }
    ensures none { length commands.now ≡ 0 → IsOk result }
{
    let mut replies = Vec::new(alloc);
    for (done, command) in commands.iter().enumerate() {
        if replies.reserve(1).is_err() {
            return Err(Stopped { done });
        }
        let Ok(reply) = carry_out(alloc, space, *command) else {
            return Err(Stopped { done });
        };
        if replies.push(reply).is_err() {
            unreachable!();
        }
    }
    Ok(replies)
}
