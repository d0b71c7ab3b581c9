// The members of a unit as lines of text: a name, and values of one type.
use std::alloc::Global;
use std::fmt::Display;
use std::test::Fail;

/// Lines of text.
#[derive(Drop)]
pub struct Told {
    alloc: Global,
    text: String,
}

impl Told {
    pub fn new(alloc: Global) -> Told {
        Told {
            alloc,
            text: String::new(alloc),
        }
    }

    /// One more line.
    pub fn line<T: Display>(&mut self, name: &str, values: &[T]) -> Result<(), Fail> {
        if !self.text.as_str().is_empty() {
            self.text.push_str("\n")?;
        }
        self.text.push_str(name)?;
        self.values(values)
    }

    /// More values in the last line.
    pub fn values<T: Display>(&mut self, values: &[T]) -> Result<(), Fail> {
        for value in values {
            let word = format!(in self.alloc; " {value}")?;
            self.text.push_str(word.as_str())?;
        }
        Ok(())
    }

    pub fn text(self) -> String {
        let Told { alloc: _, text } = self;
        text
    }
}
