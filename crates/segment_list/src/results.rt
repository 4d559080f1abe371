//! Results of which a text shows the rows.
ghost use Rattle.std.specs.Prelude.{◌≡◌, map};
ghost use Rattle.eql_model.specs.Rows.{row_of};

use bundle_state::Bundle;
use db_config::Config;
use eql_rows::Spans;
use std::marker::Model;
use std::snapshot::Snapshot;

/// Some results in a bundle, which contracts see as their rows.
#[derive(Drop)]
pub(crate) struct Results {
    config: Snapshot<Config>,
    bundle: Snapshot<Bundle>,
    time: Snapshot<Option<usize>>,
    spans: Snapshot<Spans>,
}

impl Model for Results {
    ghost use Rattle.std.specs.Prelude.{List, map};
    ghost use Rattle.eql_rows.specs.declared.row.Row.{Row};
    ghost use Rattle.eql_model.specs.Rows.{row_of};

    ghost Value = { List Row };

    ghost view = { λ r. map (row_of r.config.value r.bundle.value r.time.value) r.spans.value };
}

impl Results {
    /// Results in a bundle under a configuration, with the level that gives those of an ITEM level their times.
    pub(crate) fn of(
        config: &Config,
        bundle: &Bundle,
        time: Option<usize>,
        spans: &Spans,
    ) -> Results
        ensures { result ≡ map (row_of config.now bundle.now time) spans.now }
    {
        Results {
            config: Snapshot::of(config),
            bundle: Snapshot::of(bundle),
            time: Snapshot::of(&time),
            spans: Snapshot::of(spans),
        }
    }
}
