//! Tests of folders: which files of a log are read, what a crash leaves of a journal, in which
//! folders a journal is opened, and what it writes into them; of the position of a sender, and what
//! is read after it; of the pages for people, and of what a receiver counts.
#![tactic(auto)]

#[cfg(test)]
mod bodies;
#[cfg(test)]
mod failing_files;
#[cfg(test)]
mod failing_folders;
#[cfg(test)]
mod files;
#[cfg(test)]
mod folder_journals;
#[cfg(test)]
mod journals;
#[cfg(test)]
mod order;
#[cfg(test)]
mod owners;
#[cfg(test)]
mod pages;
#[cfg(test)]
mod passed_bytes;
#[cfg(test)]
mod positions;
#[cfg(test)]
mod texts;
