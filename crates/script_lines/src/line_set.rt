//! The request lines that came before.
ghost use Rattle.std.specs.Prelude.{◌≡◌, ◌<◌, Bool, false, [], ◌∷◌, ◌++◌, All, IfSome, OnOk, OnErr, nat_eq};
ghost use Rattle.std.specs.List.{list_any};
ghost use Rattle.script_lines.specs.Earlier.{is_change_of, is_line};
ghost use Rattle.script_lines.specs.Inner.Earlier.{passes_any};
ghost use Rattle.script_lines.specs.declared.line_set.EarlierLine.{EarlierLine};

use emu_names::{Memory, SessionNo};
use session_core::Command;
use std::alloc::Global;
use std::marker::Model;

/// A request line that came before.
#[derive(Clone, Copy)]
pub struct EarlierLine {
    /// Its number, counted from 1.
    pub line: u32,
    /// Its session.
    pub session: SessionNo,
    /// Its command.
    pub command: Command,
}

/// Earlier request lines, whose numbers rise.
#[derive(Drop)]
pub struct LineSet {
    lines: Vec<EarlierLine>,
}

impl Model for LineSet {
    ghost use Rattle.std.specs.Prelude.{List, map};
    ghost use Rattle.std.specs.List.Sorted.{IsStrictlyIncreasing};
    ghost use Rattle.script_lines.specs.declared.line_set.EarlierLine.{EarlierLine};
    ghost use Rattle.script_lines.specs.Inner.Earlier.{numbers_of};

    ghost Value = { List EarlierLine };

    ghost view = { λ s. s.lines.items };

    ghost invariant = { λ s. IsStrictlyIncreasing (numbers_of s.lines.items) };
}

impl LineSet {
    /// The set of no line.
    #[tactic(auto, using(crate::proofs::Rising::none_rises))]
    pub fn new(alloc: Global) -> LineSet
        ensures { result ≡ [] }
    {
        LineSet {
            lines: Vec::new(alloc),
        }
    }

    /// Puts a line in, whose number is above all that are there. The only refusal is want of memory, which changes
    /// nothing.
    pub fn add(&mut self, line: u32, session: SessionNo, command: Command) -> Result<(), Memory>
        requires { All (λ it. it.line < line) self.old }
        ensures ok { OnOk result (self.new
            ≡ self.old ++ record { line = line; session = session; command = command } ∷ []) }
        ensures err { OnErr result (self.new ≡ self.old) }
    {
        self.lines.push(EarlierLine {
            line,
            session,
            command,
        })?;
        Ok(())
    }

    /// The line of this number.
    fn find(&self, line: u32) -> Option<EarlierLine>
        ensures tests { (test : EarlierLine → Bool)
            → ((it : EarlierLine) → is_line line it ≡ false → test it ≡ false)
            → list_any test self.now ≡ passes_any test result }
        ensures number { IfSome result (λ it. it.line ≡ line) }
    {
        match self.lines.binary_search_by_key(&line, |it| it.line) {
            Ok(at) => Some(self.lines[at]),
            Err(_) => None,
        }
    }

    /// Whether the line of this number is there.
    #[tactic(auto, using(crate::proofs::Rising::is_there))]
    pub fn contains(&self, line: u32) -> bool
        ensures { result ≡ list_any (is_line line) self.now }
    {
        self.find(line).is_some()
    }

    /// Whether the line of this number is there, is of this session, and asks for a change.
    pub fn has_change(&self, session: SessionNo, line: u32) -> bool
        ensures { result ≡ list_any (is_change_of session.0 line) self.now }
    {
        match self.find(line) {
            Some(it) => it.session == session && it.command.is_change(),
            None => false,
        }
    }
}
