//! The lines of a script as the core takes them, and the replies that it gives.
ghost use Rattle.std.specs.Prelude.{◌≡◌};
ghost use Rattle.session_core.specs.Commands.{is_change};

use edit_undo::edit_rules::Act;
use emu_names::{Broken, Series, SessionNo, Text};
use eql_resolve::{AskFault, PrepareFault, Prepared};
use requery::Requery;
use segment_list::Listing;
use textgrid::GridFault;

/// The commands of a script.
#[derive(Clone, Copy, Debug, PartialEq, Eq)]
pub enum Command {
    /// `config`: gives the configuration.
    Config,
    /// `add_bundle`: adds a bundle with an annotation.
    AddBundle,
    /// `add_textgrid`: adds a bundle with the annotation of a TextGrid.
    AddTextgrid,
    /// `drop_bundle`: takes a bundle out.
    DropBundle,
    /// `add_item`: puts an item on a level.
    AddItem,
    /// `remove_item`: takes an item out, with its links.
    RemoveItem,
    /// `set_label`: gives an item another label.
    SetLabel,
    /// `set_segment`: gives a segment another time.
    SetSegment,
    /// `move_boundary`: moves the boundary between two segments.
    MoveBoundary,
    /// `set_point`: gives a point another time.
    SetPoint,
    /// `split`: cuts a segment in two.
    Split,
    /// `merge`: joins a segment with the one that follows it.
    Merge,
    /// `add_link`: links two items.
    AddLink,
    /// `remove_link`: takes a link out.
    RemoveLink,
    /// `link_times`: links the items of a level to the segments that hold them.
    LinkTimes,
    /// `edits`: makes several edits of one bundle, all or none.
    Edits,
    /// `add_level`: adds a level to the configuration.
    AddLevel,
    /// `add_attribute`: adds an attribute to a level of the configuration.
    AddAttribute,
    /// `add_link_definition`: adds a link definition to the configuration.
    AddLinkDefinition,
    /// `undo`: takes back what an earlier line of its session changed.
    Undo,
    /// `query`: asks for a segment list.
    Query,
    /// `look`: keeps the present state for a query.
    Look,
    /// `finish`: answers the query of the open look.
    Finish,
    /// `after`: goes on from all that a line's session had seen.
    After,
}

impl Command {
    /// Whether it asks for a change, which an `undo` may take back.
    pub fn is_change(self) -> bool
        ensures { result ≡ is_change self }
    {
        match self {
            Command::Config | Command::Query | Command::Look | Command::Finish | Command::After =>
                false,
            Command::AddBundle
            | Command::AddTextgrid
            | Command::DropBundle
            | Command::AddItem
            | Command::RemoveItem
            | Command::SetLabel
            | Command::SetSegment
            | Command::MoveBoundary
            | Command::SetPoint
            | Command::Split
            | Command::Merge
            | Command::AddLink
            | Command::RemoveLink
            | Command::LinkTimes
            | Command::Edits
            | Command::AddLevel
            | Command::AddAttribute
            | Command::AddLinkDefinition
            | Command::Undo => true,
        }
    }
}

/// A query, the level of its times, and where its results are carried.
#[derive(Drop)]
pub struct Ask {
    /// The query of the text with its patterns compiled, or the fault of the text or of its patterns.
    pub prepared: Result<Prepared, PrepareFault>,
    /// The name of the SEGMENT level on which items without times have their times, where it is given.
    pub time: Option<Text>,
    /// Where its results are carried, where they are: the rows are then those of what they reach.
    pub requery: Option<Requery>,
}

/// What a line asks for.
#[derive(Drop)]
pub enum Request {
    /// A change, or the fault of the TextGrid that was to be added.
    Edit(Result<Act, GridFault>),
    /// To take back the change that this earlier line of its session made.
    Undo(u32),
    /// The answer to a query over the present state.
    Query(Ask),
    /// To keep the present state for this query.
    Look(Ask),
    /// The answer to the query of the open look, over the state that it kept.
    Finish,
    /// To go on from all that the session of this earlier line had seen then.
    After(u32),
}

/// A line of a script that is a request.
#[derive(Drop)]
pub struct Line {
    /// Its number, counted from 1.
    pub line: u32,
    /// Its session, 1 to 16.
    pub session: SessionNo,
    /// Its command.
    pub command: Command,
    /// What it asks for.
    pub request: Request,
}

/// The requests of a script, in order.
pub type Lines = Series<Line>;

/// Why a request was refused.
#[derive(Drop)]
pub enum Refusal {
    /// An edit breaks a rule.
    Rule {
        /// The rule.
        rule: Broken,
        /// The place of the edit in the list of the line, counted from 1; none where the command has no list.
        place: Option<u32>,
    },
    /// The TextGrid that was to be added has this fault.
    Grid(GridFault),
    /// The text of the query, or one of its patterns, has this fault.
    Prepare(PrepareFault),
    /// The query has no meaning under the configuration.
    Resolve(AskFault),
    /// Rule 38: a part of the query has over 1,000,000 tuples in some bundle.
    TooManyTuples,
    /// Rule 39: the session has no open look.
    NoLook,
    /// Rule 40: the session has an open look already.
    LookOpen,
    /// Rule 58: the line that is to be taken back was not accepted.
    NotAccepted,
    /// Rule 59: what takes the line back has over 65,536 edits.
    TooManyEdits,
    /// Rule 60: nothing takes the line back, since it adds to the configuration.
    NoInverse,
    /// Rule 41: the history has 100,000 entries.
    HistoryFull,
    /// Rule 42: the store would pass its limit.
    StoreFull,
    /// Rule 43: the disk failed.
    Disk,
    /// Rule 44: memory ran out.
    Memory,
}

/// What a request is answered.
#[derive(Drop)]
pub enum Answer {
    /// It was done.
    Done(Command),
    /// The segment list of a query.
    Segments(Listing),
    /// It was refused.
    Refused(Refusal),
}

/// The reply to a line.
#[derive(Drop)]
pub struct Reply {
    /// The line's number.
    pub line: u32,
    /// The line's session.
    pub session: SessionNo,
    /// The number of edits of the state that the answer is over; an accepted edit counts itself.
    pub n: Option<u64>,
    /// The answer.
    pub answer: Answer,
}

/// Replies, in order.
pub type Replies = Series<Reply>;
