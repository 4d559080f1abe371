//! The writer of the two copies.
ghost use Rattle.std.specs.Prelude.{◌≡◌, ℕ, [], ◌∷◌, ◌++◌, drop, fold};
ghost use Rattle.crossbeam_utils.specs.Register.{TurnsAt};
ghost use Rattle.version_gate.specs.declared.rule.Known.{Known};

use crate::rule::Known;
use crossbeam_utils::rule::{Outcome, Protocol};
use left_right::Absorb;
use left_right::writer::Writer;
use std::marker::Model;
use std::sync::Wait;

/// A writer with nothing pending. Contracts see the value that it shows. It is no `Drop`: end it by
/// `close`.
pub struct Side<S: Absorb<S> + Drop, P: Protocol<S, Known>> {
    writer: Writer<S, S, Known, P>,
}

impl<S: Absorb<S> + Drop, P: Protocol<S, Known>> Model for Side<S, P> {
    ghost use Rattle.std.specs.Prelude.{◌≡◌, [], drop};

    ghost Value = { S };

    ghost view = { λ s. s.writer.desk.shown.value };

    ghost invariant = { λ s. drop s.writer.behind s.writer.log.items ≡ [] };
}

impl<S: Absorb<S> + Drop, P: Protocol<S, Known>> Side<S, P> {
    /// A writer with nothing pending.
    pub fn over(writer: Writer<S, S, Known, P>) -> Side<S, P>
        requires { drop writer.behind writer.log.items ≡ [] }
        ensures { result ≡ writer.desk.shown.value }
    {
        Side { writer }
    }

    /// Shows the next value. It tries again while memory is short, and waits for those that read
    /// the other copy.
    pub fn show<M: Outcome<S, Known>, R: Wait>(self, rt: &R, next: S) -> Side<S, P>
        requires { (seat : ℕ) (v : Known) (later : S) →
            S.state later ≡ S.applied (S.state self) next
            → TurnsAt P.holds seat v self later M.then }
        ensures { S.state result ≡ S.applied (S.state self) next }
    {
        let Side { mut writer } = self;
        put(rt, &mut writer, next);
        Side {
            writer: push::<S, P, M, R>(rt, writer),
        }
    }

    /// Waits for the passes that read, and ends the writer.
    pub fn close<R: Wait>(self, rt: &R) {
        let Side { writer } = self;
        let _shown = writer.take(rt);
    }
}

// Makes the operation pending. It tries again while memory is short.
fn put<S: Absorb<S> + Drop, P: Protocol<S, Known>, R: Wait>(
    rt: &R,
    writer: &mut Writer<S, S, Known, P>,
    next: S,
)
    ensures desk { writer.new.desk ≡ writer.old.desk }
    ensures pending { drop writer.new.behind writer.new.log.items
        ≡ drop writer.old.behind writer.old.log.items ++ next ∷ [] }
{
    let mut left = next;
    for _ in rt.forever() {
        match writer.append(left) {
            Ok(()) => return,
            Err(again) => left = again,
        }
    }
    unreachable!()
}

// Shows what is pending. It tries again while memory is short.
fn push<S: Absorb<S> + Drop, P: Protocol<S, Known>, M: Outcome<S, Known>, R: Wait>(
    rt: &R,
    writer: Writer<S, S, Known, P>,
) -> Writer<S, S, Known, P>
    requires { let shown = writer.desk.shown.value in
        (seat : ℕ) (v : Known) (later : S)
        → S.state later ≡ fold S.applied (S.state shown) (drop writer.behind writer.log.items)
        → TurnsAt P.holds seat v shown later M.then }
    ensures state { S.state result.desk.shown.value
        ≡ fold S.applied (S.state writer.desk.shown.value) (drop writer.behind writer.log.items) }
    ensures pending { drop result.behind result.log.items ≡ [] }
{
    let mut writer = writer;
    for _ in rt.forever() {
        let (back, shown) = writer.publish_as::<M, R>(rt);
        match shown {
            Ok(()) => return back,
            Err(_) => writer = back,
        }
    }
    unreachable!()
}
