// The report: the program's limits, and the room that it needs.
#![tactic(auto)]

// "with size and row limits 4,096 and step limit 1,000,000"
pub const SIZE_LIMIT: u32 = 4096;

pub const ROW_LIMIT: u32 = 4096;

pub const STEP_LIMIT: u64 = 1000000;

// The most bytes of a line of a reply: its setting has a byte for each input.
pub const REPLY_ROOM: usize = report_format::LINE_ROOM + table::MAX_INPUTS as usize;

// The most bytes of a report: the head line and a line for each output.
pub const REPORT_ROOM: usize = report_format::LINE_ROOM + table::MAX_OUTPUTS as usize * REPLY_ROOM;

// The most vertices of a comparison: those of a graph and the two next ones.
pub const COMPARE_VERTICES: usize = load_model::MAX_VERTICES + compare_model::NEXT_VERTICES;

// The words of each of the four slices that a comparison works in beside the rows.
pub const COMPARE_ROOM: usize = 2 * COMPARE_VERTICES;

// The words of the rows that a comparison with the program's row limit works in.
pub const ROWS_ROOM: usize = 4 * ROW_LIMIT as usize;
