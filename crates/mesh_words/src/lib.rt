//! Reads the command that the words of the second program's command line give.
#![tactic(auto)]

mod allowed;
mod arguments;
mod command;
mod exports;
mod expressions;
mod faults;
mod folders;
mod given;
mod names;
mod numbers;
mod paths;
mod placings;
mod plain;
mod reading;
mod snaps;
mod streams;
mod targets;
mod texts;
mod values;
mod views;

pub use arguments::words_ask_json;
pub use command::{
    Command, Destination, ExportRequest, OutputFormat, Request, SnapRequest, ViewRequest,
    WantedStep,
};
pub use faults::{Refusal, WordsFault};
pub use folders::{document_name, mesh_name, scene_name};
pub use given::{input_given, output_given, step_given, value_given};
pub use names::Setting;
pub use reading::read_words;
