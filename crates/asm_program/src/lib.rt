//! Assembles programs: text in, instructions and data at their addresses out, or the first fault (GNU as; RISC-V Assembly
//! Programmer's Manual; profile).
#![tactic(auto)]

mod assemble;
mod changes;
mod code;
mod data;
mod directives;
mod forms;
mod highs;
mod laws;
mod layout;
mod maps;
mod moves;
mod output;
mod parts;
mod sections;
mod stop;
mod strings;
mod tables;

pub use assemble::{Assembly, AssemblyError, ProgramFault, ProgramWrong, assemble_text};
pub use code::CodeLine;
pub use data::Datum;
pub use laws::one_assembly;
