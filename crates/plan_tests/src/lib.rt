//! An example of `fuse_plan` by itself, for a tool that burns fuses and has no server. Take the
//! folders of `fuse_plan`, `fuse_image`, `fusemap_core`, `members` and `text_core`, and their rows of
//! `crates.txt`.
#![tactic(auto)]

#[cfg(test)]
mod planned;
