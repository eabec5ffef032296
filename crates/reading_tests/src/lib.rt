//! Tests of the crates that read texts and of what they stand on, by their public calls: files, tokens, gates, netlists, delays and
//! models; and of the edges of a program. A crate whose tests stand elsewhere is proved once and not twice.
#![tactic(auto)]

#[cfg(test)]
mod tests;
