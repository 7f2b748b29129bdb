//! A log that grows by the faults of programs.

use crate::parts::{log_of, notification_of, result_of, rule_of};
use serde_json::Value;
use std::alloc::{AllocError, Global};

/// The faults of programs, in the order in which they are put, the rules that they break, and the files that can't be read.
#[derive(Drop)]
pub struct Log {
    results: Vec<Value>,
    notifications: Vec<Value>,
    /// The numbers of the faults, each once.
    numbers: Vec<u32>,
    rules: Vec<Value>,
}

impl Log {
    /// A log of nothing.
    pub fn new(alloc: Global) -> Log {
        Log {
            results: Vec::new(alloc),
            notifications: Vec::new(alloc),
            numbers: Vec::new(alloc),
            rules: Vec::new(alloc),
        }
    }

    /// The rule of this number is one of those that are broken.
    fn put_rule(&mut self, alloc: Global, number: u32) -> Result<(), AllocError> {
        if self.numbers.contains(&number) {
            return Ok(());
        }
        let rule = rule_of(alloc, number)?;
        self.rules.push(rule)?;
        self.numbers.push(number)?;
        Ok(())
    }

    /// Puts a fault of the program in this file, with its line, which is 0 where it has none, and what was found there, which
    /// is empty where that isn't told.
    pub fn put_fault(
        &mut self,
        alloc: Global,
        name: &str,
        number: u32,
        line: usize,
        detail: &[u8],
    ) -> Result<(), AllocError> {
        self.put_rule(alloc, number)?;
        let result = result_of(alloc, name, number, line, detail)?;
        self.results.push(result)?;
        Ok(())
    }

    /// Puts a file that can't be read.
    pub fn put_unread(&mut self, alloc: Global, name: &str) -> Result<(), AllocError> {
        let notification = notification_of(alloc, name)?;
        self.notifications.push(notification)?;
        Ok(())
    }

    /// The text of the log: JSON on one line, without a line feed at its end.
    pub fn into_text(self, alloc: Global) -> Result<String, AllocError> {
        let log = log_of(alloc, self.rules, self.results, self.notifications)?;
        log.to_string(alloc)
    }
}
