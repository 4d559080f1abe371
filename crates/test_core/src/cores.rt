//! The core takes a list of events, and begins with a history, where memory is ample.
ghost use Rattle.std.specs.Prelude.{◌<◌, All, IfOk};
ghost use Rattle.session_core.specs.Steps.{session_places};
ghost use Rattle.session_core.specs.Inner.Steps.{place_of};

use crate::made::{adding, config};
use db_config::Config;
use edit_rules::{Act, Entry};
use emu_names::{Broken, Fault, Memory, SessionNo};
use eql_resolve::prepare;
use label_match::RegexMaker;
use plain_core::{Core, PlainHistory};
use reply_texts::print_reply;
use session_core::{Ask, Command, Event, Events, Line, Replies, Request};
use std::alloc::Global;
use std::process::Abort;
use std::test::Fail;

fn query(alloc: Global) -> Request {
    let mut maker = RegexMaker::new();
    let prepared = prepare(alloc, &mut maker, "Word == m");
    Request::Query(Ask {
        prepared,
        time: None,
        requery: None,
    })
}

/// The look and the end of a query, of session 1 at line 2.
fn events(alloc: Global) -> Result<Events, Memory>
    ensures { IfOk result (λ events. All (λ event. place_of event < session_places) events.items) }
{
    let request = query(alloc);
    let line = Line {
        line: 2,
        session: SessionNo(1),
        command: Command::Query,
        request,
    };
    let mut events = Events::new(alloc);
    events.push_back(Event::Look { line })?;
    events.push_back(Event::Finish {
        line: 2,
        session: SessionNo(1),
        command: Command::Query,
    })?;
    Ok(events)
}

/// The core over a history that is not too long.
fn core(alloc: Global, config: Config, history: PlainHistory) -> Result<Core, Fault> {
    if history.len() > 100_000 {
        drop(config);
        drop(history);
        return Err(Fault::Memory);
    }
    Core::new(alloc, config, history)
}

/// The replies of a core to the query.
fn queried(alloc: Global, core: Core) -> Result<Replies, Memory> {
    match events(alloc) {
        Ok(events) => {
            let mut asked = core;
            let replies = asked.run(events);
            drop(asked);
            replies
        }
        Err(fault) => {
            drop(core);
            Err(fault)
        }
    }
}

/// Compares the one reply to the query.
fn expect_reply(rt: &impl Abort, alloc: Global, replies: &Replies) -> Result<(), Fail> {
    assert_eq!(rt; replies.len(), 1);
    let text = print_reply(alloc, replies.get(0))?;
    assert_eq!(rt; text.as_str(), "{\"line\":2,\"n\":0,\"segments\":[]}\n");
    Ok(())
}

#[test]
fn a_query_is_run(rt: HostRuntime) -> Result<(), Fail> {
    let core = replayed(rt.alloc(), 0)??;
    let replies = queried(rt.alloc(), core)?;
    let compared = expect_reply(&rt, rt.alloc(), &replies);
    drop(replies);
    compared
}

/// The entry that adds a bundle without items.
fn entry(alloc: Global) -> Result<Entry, Fail> {
    let edits = adding(alloc, 0)?;
    Ok(Entry {
        session: SessionNo(1),
        line: 2,
        act: Act::Edits(edits),
    })
}

/// So many entries, each of which adds the same bundle.
fn entries(alloc: Global, count: usize) -> Result<PlainHistory, Fail> {
    let mut entries = PlainHistory::new(alloc);
    for _ in 0..count {
        entries.push(entry(alloc)?)?;
    }
    Ok(entries)
}

/// The core behind so many entries, or why there is none.
fn replayed(alloc: Global, count: usize) -> Result<Result<Core, Fault>, Fail> {
    let history = entries(alloc, count)?;
    let config = config(alloc)?;
    Ok(core(alloc, config, history))
}

#[test]
fn a_history_is_replayed(rt: HostRuntime) -> Result<(), Fail> {
    let core = replayed(rt.alloc(), 1)??;
    let counts = (core.number(), core.history().len());
    drop(core);
    assert_eq!(rt; counts, (1, 1));
    Ok(())
}

#[test]
fn a_history_that_breaks_a_rule_is_refused(rt: HostRuntime) -> Result<(), Fail> {
    let refused = replayed(rt.alloc(), 2)?.err();
    assert_eq!(rt; refused, Some(Fault::Broken(Broken::BundleTaken)));
    Ok(())
}
