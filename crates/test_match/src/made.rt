//! The configuration of a text, and the prepared query of a text.
use config_json::read_config;
use db_config::Config;
use eql_resolve::{PrepareFault, Prepared, prepare};
use json_view::View;
use label_match::RegexMaker;
use serde_json::Value;
use std::alloc::Global;
use std::test::Fail;

/// The configuration of a value.
fn config_of_value(alloc: Global, value: &Value) -> Result<Config, Fail> {
    let view = View::root(alloc, value)?;
    Ok(read_config(alloc, &view)?)
}

/// The configuration of a text.
pub(crate) fn config_of(alloc: Global, text: &str) -> Result<Config, Fail> {
    let value = Value::from_str(alloc, text)?;
    config_of_value(alloc, &value)
}

/// The prepared query of a text.
pub(crate) fn prepared_of(alloc: Global, text: &str) -> Result<Prepared, PrepareFault> {
    let mut maker = RegexMaker::new();
    prepare(alloc, &mut maker, text)
}
