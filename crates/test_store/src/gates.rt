//! What looks give around a stage, a publish and a learnt note, on one thread and beside a
//! publisher on another.
ghost use Rattle.std.specs.Prelude.{◌≡◌, ◌≤◌, IfOk};

use crate::compared::same;
use std::alloc::Global;
use std::marker::Model;
use std::sync::atomic::AtomicBool;
use std::sync::atomic::Ordering::SeqCst;
use std::sync::{Arc, Wait};
use std::test::Fail;
use std::thread::join;
use version_gate::law::catch_up;
use version_gate::{LookFault, Made, Memory, Note, Pass, Passes, Publisher, new_gate};

// A gate with two passes, of which one will learn.
struct Two {
    publisher: Publisher<u64>,
    pass: Pass<u64>,
    other: Pass<u64>,
}

fn two_passes<R: Wait>(rt: &R, alloc: Global, number: u64, version: u64) -> Result<Two, Memory>
    ensures number { IfOk result (λ m. m.publisher.number ≡ number) }
    ensures gate { IfOk result (λ m. m.pass.gate ≡ m.publisher.gate) }
{
    let opening = Arc::new(alloc, version)?;
    let Made {
        publisher,
        mut passes,
    } = new_gate(rt, alloc, number, opening, 2)?;
    let last = passes.pop();
    match (last, passes.pop()) {
        (Some(pass), Some(other)) => Ok(Two {
            publisher,
            pass,
            other,
        }),
        _ => {
            publisher.close(rt);
            Err(Memory)
        }
    }
}

// The number and version that a look gives, and the number that the pass has then seen. What it gives
// may go to other threads.
fn look(pass: &mut Pass<u64>) -> Option<(u64, u64, u64)>
    ensures { pass.new.gate ≡ pass.old.gate }
{
    let Ok(found) = pass.look() else {
        return None;
    };
    is_shared(&found);
    let given = (found.number, *found.version);
    drop(found);
    Some((given.0, given.1, pass.seen()))
}

// What the looks give at the opening, after two stages of one number, and after the publish and
// what was learnt of it; what the other pass then sees; and whether the first has caught up.
fn looks_around_a_publish<R: Wait>(
    rt: &R,
    alloc: Global,
    two: &mut Two,
) -> Result<([Option<(u64, u64, u64)>; 6], bool), Memory>
    requires number { two.old.publisher.number ≡ 7 }
    requires gate { two.old.pass.gate ≡ two.old.publisher.gate }
{
    let Two {
        publisher,
        pass,
        other,
    } = two;
    let opening = look(pass);
    let others = look(other);
    publisher.stage(8, Arc::new(alloc, 79)?)?;
    publisher.stage(8, Arc::new(alloc, 80)?)?;
    let staged = look(pass);
    publisher.publish(rt);
    pass.learn(publisher.tell());
    let learnt = Some((pass.seen(), 0, 0));
    let published = look(pass);
    let caught = catch_up(publisher, pass);
    let last = look(other);
    Ok(([opening, others, staged, learnt, published, last], caught))
}

#[test]
fn a_version_is_seen_once_it_is_published(rt: HostRuntime) -> Result<(), Fail> {
    let mut two = two_passes(&rt, rt.alloc(), 7, 70)?;
    let found = looks_around_a_publish(&rt, rt.alloc(), &mut two);
    let Two {
        publisher,
        mut pass,
        other,
    } = two;
    publisher.close(&rt);
    drop(other);
    let wanted = [
        Some((7, 70, 7)),
        Some((7, 70, 7)),
        Some((7, 70, 7)),
        Some((8, 0, 0)),
        Some((8, 80, 8)),
        Some((8, 80, 8)),
    ];
    let closed = pass.look().err();
    let seen = pass.seen();
    drop(pass);
    same(
        &rt,
        (found, closed, seen),
        (Ok((wanted, true)), Some(LookFault::NoEntry), 8),
    );
    Ok(())
}

// How many passes there are, what the first of them has seen, whether one stands at a place, and how
// many there are once the last is taken and once it is back.
type Counts = (usize, Option<u64>, bool, usize, usize);

fn counts(passes: &mut Passes<u64>, place: usize) -> Result<Counts, Memory> {
    let count = passes.len();
    let first = passes.get(0).map(|pass| pass.seen());
    let stands = passes.get(place).is_some();
    let last = passes.pop();
    let without = passes.len();
    if let Some(pass) = last {
        passes.push(pass)?;
    }
    Ok((count, first, stands, without, passes.len()))
}

// The counts of a gate for so many readers, and whether a pass stands behind as many.
fn counts_for<R: Wait>(rt: &R, alloc: Global, readers: u32) -> Result<Counts, Memory>
    requires { (1 ≤ readers) × (readers ≤ 16) }
{
    let opening = Arc::new(alloc, 5)?;
    let Made {
        publisher,
        mut passes,
    } = new_gate(rt, alloc, 3, opening, readers)?;
    publisher.close(rt);
    let found = counts(&mut passes, readers as usize);
    drop(passes);
    found
}

#[test]
fn a_gate_has_as_many_passes_as_readers(rt: HostRuntime) -> Result<(), Fail> {
    let alloc = rt.alloc();
    let found = [
        counts_for(&rt, alloc, 1),
        counts_for(&rt, alloc, 2),
        counts_for(&rt, alloc, 16),
    ];
    let wanted = [
        Ok((1, Some(3), false, 0, 1)),
        Ok((2, Some(3), false, 1, 2)),
        Ok((16, Some(3), false, 15, 16)),
    ];
    same(&rt, found, wanted);
    Ok(())
}

// A publisher, and the number of its last version.
struct Counted {
    publisher: Publisher<u64>,
    number: u64,
}

impl Model for Counted {
    ghost use Rattle.std.specs.Prelude.{◌≡◌, ℕ};

    ghost Value = { ℕ };

    ghost view = { λ c. c.number };

    ghost invariant = { λ c. c.publisher.number ≡ c.number };
}

impl Counted {
    // Publishes the next version, which is three times its number.
    fn publish_next<R: Wait>(&mut self, rt: &R, alloc: Global) -> Result<(), Memory> {
        let Some(number) = self.number.checked_add(1) else {
            return Err(Memory);
        };
        let version = Arc::new(alloc, number.wrapping_mul(3))?;
        self.publisher.stage(number, version)?;
        self.publisher.publish(rt);
        self.number = number;
        Ok(())
    }

    // Publishes so many versions.
    fn publish_many<R: Wait>(&mut self, rt: &R, alloc: Global, count: u64) -> Result<(), Memory> {
        for _ in 0..count {
            self.publish_next(rt, alloc)?;
        }
        Ok(())
    }

    fn tell(&mut self) -> Note<u64> {
        self.publisher.tell()
    }

    fn close<R: Wait>(self, rt: &R) {
        let Counted {
            publisher,
            number: _,
        } = self;
        publisher.close(rt);
    }
}

// Looks until it finds a number, or an older one once the publisher has ended. Whether it found it,
// no look went back, and each gave the version of its number.
fn look_up_to(pass: &mut Pass<u64>, last: u64, ended: &AtomicBool) -> bool {
    let mut before = 0;
    for _ in 0..u64::MAX {
        let over = ended.load(SeqCst);
        let Ok(found) = pass.look() else {
            continue;
        };
        if found.number < before || *found.version != found.number.wrapping_mul(3) {
            return false;
        }
        before = found.number;
        if over || before >= last {
            return before >= last && pass.seen() == before;
        }
    }
    false
}

fn is_sent<T: Send>(_: &T) {}

fn is_shared<T: Send + Sync>(_: &T) {}

// What goes to other threads, for each type of version.
fn all_cross<T: Drop + Send + Sync>(publisher: &Publisher<T>, pass: &Pass<T>, note: &Note<T>) {
    is_sent(publisher);
    is_sent(pass);
    is_shared(note);
}

#[test]
fn looks_beside_a_publisher_never_go_back(rt: HostRuntime) -> Result<(), Fail> {
    let alloc = rt.alloc();
    let Two {
        publisher,
        mut pass,
        mut other,
    } = two_passes(&rt, alloc, 7, 21)?;
    let mut counted = Counted {
        publisher,
        number: 7,
    };
    let ended = AtomicBool::new(false);
    let raced = join(
        &rt,
        || {
            let published = counted.publish_many(&rt, alloc, 100);
            ended.store(true, SeqCst);
            published
        },
        || {
            join(
                &rt,
                || look_up_to(&mut pass, 107, &ended),
                || look_up_to(&mut other, 107, &ended),
            )
        },
    );
    let note = counted.tell();
    all_cross(&counted.publisher, &pass, &note);
    let found = look(&mut pass);
    counted.close(&rt);
    drop(note);
    drop(pass);
    drop(other);
    same(
        &rt,
        (raced, found),
        ((Ok(()), (true, true)), Some((107, 321, 107))),
    );
    Ok(())
}
