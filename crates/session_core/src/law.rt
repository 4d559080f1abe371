//! Laws of the definitions, with nothing to run: what every run of the core keeps.
ghost use Rattle.session_core.specs.Laws.{EveryCoreRunIsLegal, EveryRunIsLegal};
ghost use Rattle.session_core.specs.Laws.{ExampleFits, ExampleHistory, ExampleIsLegal, ExampleReplies, ExampleSizes};
ghost use Rattle.session_core.specs.Laws.{AcceptedIsRecorded, AnswerIsExact, RecordedIsAccepted, StaleIsNotLegal};
ghost use Rattle.session_core.specs.OrderLaws.{InOrderIsLegal};
ghost use Rattle.session_core.specs.Readings.{InTurnIsInOrder, OneReading, RepliesFollow};

/// Every run is legal: from a legal history of at most 100,000 entries, whatever events fit one
/// another in whatever order, whether or not memory runs out at any of them, and whatever a store and
/// its disk refuse where there is one, the replies are legal replies to the answered lines beside the
/// history that the run leaves.
pub fn every_run_is_legal()
    ensures legal { EveryRunIsLegal }
{}

/// The same of the core's own steps, at which memory does not run out: their replies and their
/// history make a legal run.
pub fn every_core_run_is_legal()
    ensures legal { EveryCoreRunIsLegal }
{}

/// Legal runs say something: a bundle with the segments V (3749, 1389) and m (5139, 1664) is added
/// at 20,000 Hz and accepted as entry 1, and `Phonetic == m` is answered after it by the one
/// segment m from 256,925 to 340,175 microseconds. In a store its head has 64 bytes and its entry 149,
/// and an entry that takes an item out of it 26.
pub fn an_example_is_legal()
    ensures fits { ExampleFits }
    ensures replies { ExampleReplies }
    ensures history { ExampleHistory }
    ensures legal { ExampleIsLegal }
    ensures sizes { ExampleSizes }
{}

/// Wrong replies are no legal run: of the example, a query that is answered over the state before
/// its session's own edit, whatever the history; any answer beside the edit but the right one; an
/// acceptance whose entry is not in the history; an entry that no reply accepts.
pub fn wrong_replies_are_not_legal()
    ensures stale { StaleIsNotLegal }
    ensures exact { AnswerIsExact }
    ensures recorded { AcceptedIsRecorded }
    ensures accepted { RecordedIsAccepted }
{}

/// A run in order is legal: where each line is answered before the next one is read, the replies are
/// legal replies to the lines beside the history that they leave, whatever the lines, with a store and
/// without, and wherever memory runs out or the disk fails.
pub fn in_order_is_legal()
    ensures legal { InOrderIsLegal }
{}

/// A legal run in order has one reading: where the lines are answered in their order, with no store,
/// and each number but a `finish`'s is the number of entries that stand when its line is done, the
/// replies and the history follow from the lines, the history before them and the places where
/// memory ran out. So two such runs in which memory ran out at the same lines are the same. The other
/// way round, from no history, the replies in turn are such a run, wherever memory runs out: exactly
/// these are the legal replies in order.
pub fn a_run_in_order_has_one_reading()
    ensures follows { RepliesFollow }
    ensures once { OneReading }
    ensures in_turn { InTurnIsInOrder }
{}
