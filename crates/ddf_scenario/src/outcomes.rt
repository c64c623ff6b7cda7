//! The different outcomes of a call that is made again and again.
use std::alloc::{AllocError, Global};

/// Texts in the order in which each came first.
#[derive(Drop)]
pub struct Outcomes {
    texts: Vec<String>,
}

impl Outcomes {
    pub fn new(alloc: Global) -> Outcomes {
        Outcomes {
            texts: Vec::new(alloc),
        }
    }

    pub fn add(&mut self, text: String) -> Result<(), AllocError> {
        if !self.texts.contains(&text) {
            self.texts.push(text)?;
        }
        Ok(())
    }

    /// All of them, with a line `or` between.
    pub fn text(&self, alloc: Global) -> Result<String, AllocError> {
        let mut text = String::new(alloc);
        for (place, one) in self.texts.iter().enumerate() {
            if place > 0 {
                text.push_str("or\n")?;
            }
            text.push_str(one.as_str())?;
        }
        Ok(text)
    }
}
