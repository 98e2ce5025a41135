//! An example of `http_frames` by itself, for who wants its proof and none of the rest. Take the
//! folders of `http_frames`, `http_replies` and `text_core`, and their rows of `crates.txt`.
#![tactic(auto)]

#[cfg(test)]
mod echo;
