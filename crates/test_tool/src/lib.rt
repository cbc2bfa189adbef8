//! Tests of the rules, of what is known of references, of the settings, of the program's engines,
//! of the printed reports of a log, and of the notes on malformed lines.
#![tactic(auto)]

#[cfg(test)]
mod blocks;
#[cfg(test)]
mod bodies;
#[cfg(test)]
mod decimals;
#[cfg(test)]
mod external_labels;
#[cfg(test)]
mod logs;
#[cfg(test)]
mod notes;
#[cfg(test)]
mod plans;
#[cfg(test)]
mod reports;
#[cfg(test)]
mod rows;
#[cfg(test)]
mod rule_making;
#[cfg(test)]
mod rules;
#[cfg(test)]
mod series_cache;
#[cfg(test)]
mod settings_documents;
#[cfg(test)]
mod settings_ranges;
#[cfg(test)]
mod settings_texts;
#[cfg(test)]
mod texts;
