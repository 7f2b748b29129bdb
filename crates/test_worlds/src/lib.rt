//! Tests of class tables, of what worlds, schedules and journals are read as, and of what is written: the public calls
//! with success, each refusal once, and writers that fail. Expected values are counted by hand.
#![tactic(auto)]

#[cfg(test)]
mod class_tables;
#[cfg(test)]
mod methods;
#[cfg(test)]
mod reading;
#[cfg(test)]
mod writing;
