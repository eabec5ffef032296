//! The tests, and what they share.
mod comparing_tests;
mod diagram_tests;
mod gate_tests;
mod merge_tests;
mod netlist_texts;
mod plain_tests;
mod shape_tests;
mod signal_tests;
mod stage_tests;
mod testing;
