//! The core of the C library: the functions by which C uses sessions of the engine.
#![tactic(auto)]

mod exports;

pub use exports::{
    udfburn_core_answer, udfburn_core_answered, udfburn_core_begin, udfburn_core_end,
    udfburn_core_format_fd, udfburn_core_last_number, udfburn_core_log, udfburn_core_new,
    udfburn_core_next_block, udfburn_core_open_drive, udfburn_core_open_fd,
    udfburn_core_open_memory, udfburn_core_settle, udfburn_core_status, udfburn_core_take,
    udfburn_core_take_back, udfburn_core_took,
};
