//! Commands with their answers, in little memory.

ghost use Rattle.std.specs.Prelude.{◌≡◌, ◌∷◌, ◌++◌, [], true, length, OnOk};
ghost use Rattle.std.specs.Iterator.{YieldsFirst, item_count};

use crate::kept::{Kept, KeptLeft};
use osdp_msg::{Command, Reply, Spelling};
use std::alloc::{AllocError, Global};
use std::marker::Model;

/// Commands that were settled, each with its answer, in their order.
#[derive(Debug, Drop)]
pub struct Settled {
    /// The commands.
    commands: Kept,
    /// The answer of each.
    answers: Kept,
}

impl Model for Settled {
    ghost use Rattle.std.specs.Prelude.{◌≡◌, ◌&&◌, length, map};
    ghost use Rattle.osdp_msg.specs.Kept.{reply_kept};
    ghost use Rattle.osdp_msg.specs.declared.command.Command.{Command};
    ghost use Rattle.osdp_msg.specs.declared.reply.Reply.{Reply};
    ghost use Rattle.osdp_sim.specs.Kept.{Keeping, commands_of, settled_of};

    ghost Value = { Keeping (Command × Reply) };

    ghost view = { λ k. record {
      items = settled_of k.commands.items k.answers.items;
      has_place = k.commands.has_place && k.answers.has_place;
    } };

    ghost invariant = { λ k. length (commands_of k.commands.items) ≡ length (map reply_kept k.answers.items) };
}

impl Settled {
    /// No command.
    pub fn new(alloc: Global) -> Settled
        ensures { result.items ≡ [] }
    {
        Settled {
            commands: Kept::new(alloc),
            answers: Kept::new(alloc),
        }
    }

    /// How many there are.
    pub fn len(&self) -> usize
        ensures { result ≡ length self.now.items }
    {
        self.commands.len()
    }

    /// Makes a place for one more, however long it and its answer are.
    #[inline(always)]
    pub fn grow(&mut self) -> Result<(), AllocError>
        ensures same { self.new.items ≡ self.old.items }
        ensures place { OnOk result (self.new.has_place ≡ true) }
    {
        self.commands.grow()?;
        self.answers.grow()?;
        Ok(())
    }

    /// Adds a command and its answer, by way of a place for their bytes.
    pub fn push(&mut self, command: &Command<'_>, answer: &Reply<'_>, spelling: &mut Spelling)
        requires { self.old.has_place ≡ true }
        ensures { self.new.items ≡ self.old.items ++ (command.now, answer.now) ∷ [] }
    {
        self.commands.push_command(command, spelling);
        self.answers.push_reply(answer, spelling);
    }

    /// All of them, to be taken one after the other.
    pub fn left(&self) -> SettledLeft<'_>
        ensures { result ≡ self.now.items }
    {
        SettledLeft {
            commands: self.commands.left(),
            answers: self.answers.left(),
        }
    }
}

/// The commands that are still to come, each with its answer.
#[derive(Drop)]
pub struct SettledLeft<'a> {
    /// The commands.
    commands: KeptLeft<'a>,
    /// The answer of each.
    answers: KeptLeft<'a>,
}

impl<'a> Model for SettledLeft<'a> {
    ghost use Rattle.std.specs.Prelude.{◌≡◌, List, length, map};
    ghost use Rattle.osdp_msg.specs.Kept.{reply_kept};
    ghost use Rattle.osdp_msg.specs.declared.command.Command.{Command};
    ghost use Rattle.osdp_msg.specs.declared.reply.Reply.{Reply};
    ghost use Rattle.osdp_sim.specs.Kept.{commands_of, settled_of};

    ghost Value = { List (Command × Reply) };

    ghost view = { λ k. settled_of k.commands k.answers };

    ghost invariant = { λ k. length (commands_of k.commands) ≡ length (map reply_kept k.answers) };
}

impl<'a> Iterator for SettledLeft<'a> {
    type Item = (Command<'a>, Reply<'a>);

    ghost next_gives = { YieldsFirst (λ left. left) };

    ghost remaining = { item_count (λ left. left) };

    fn next(&mut self) -> Option<(Command<'a>, Reply<'a>)> {
        let command = self.commands.next()?;
        let answer = self.answers.next()?;
        Some((Command::kept(command), Reply::kept(answer)))
    }
}
