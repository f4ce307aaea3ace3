//! Definitions and lemmas for CESU-8 and Modified UTF-8, without code. `specs` defines text, the
//! two encodings, what bytes decode to, and the laws. `proofs` proves the laws, and the lemmas that
//! other crates cite.
#![tactic(auto)]
