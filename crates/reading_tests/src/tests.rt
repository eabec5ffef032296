//! The tests, and what they share.
mod base_tests;
mod blif_tests;
mod delay_tests;
mod gates_tests;
mod long_tests;
mod long_texts;
mod network_tests;
mod reader_tests;
mod system_tests;
mod token_tests;
mod vector_tests;
