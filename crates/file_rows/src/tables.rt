//! The files of data, and what answers their rows.

use crate::row_fault::RowFault;
use crate::{fault_texts, files, fits, launches, modules, names, places, sinks};
use std::alloc::Global;
use std::rt;

/// A kind of row.
#[derive(Clone, Copy)]
pub enum Table {
    ModuleReads,
    ModuleWrites,
    FaultTexts,
    Names,
    Files,
    Sinks,
    Launches,
    Layouts,
    Uniforms,
    Fits,
}

pub const TABLES: [Table; 10] = [
    Table::ModuleReads,
    Table::ModuleWrites,
    Table::FaultTexts,
    Table::Names,
    Table::Files,
    Table::Sinks,
    Table::Launches,
    Table::Layouts,
    Table::Uniforms,
    Table::Fits,
];

impl Table {
    /// The file with its rows.
    pub fn file(self) -> &'static str {
        match self {
            Table::ModuleReads => "module_reads.txt",
            Table::ModuleWrites => "module_writes.txt",
            Table::FaultTexts => "fault_texts.txt",
            Table::Names => "names.txt",
            Table::Files => "files.txt",
            Table::Sinks => "sinks.txt",
            Table::Launches => "launches.txt",
            Table::Layouts => "layouts.txt",
            Table::Uniforms => "uniforms.txt",
            Table::Fits => "fits.txt",
        }
    }
}

/// What a call answers.
pub fn answer<R: rt::Files + Print>(
    rt: &R,
    alloc: Global,
    table: Table,
    call: &str,
) -> Result<String, RowFault> {
    match table {
        Table::ModuleReads => modules::read_answer(alloc, call),
        Table::ModuleWrites => modules::write_answer(alloc, call),
        Table::FaultTexts => fault_texts::answer(alloc, call),
        Table::Names => names::answer(alloc, call),
        Table::Files => files::answer(rt, alloc, call),
        Table::Sinks => sinks::answer(rt, alloc, call),
        Table::Launches => launches::answer(alloc, call),
        Table::Layouts => places::layout_answer(alloc, call),
        Table::Uniforms => places::uniforms_answer(alloc, call),
        Table::Fits => fits::answer(alloc, call),
    }
}
