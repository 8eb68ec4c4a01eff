// A line of the table.
use crate::asked::Asked;
use std::alloc::{AllocError, Global};

// What is asked of a house, and the answer that the table has for it.
#[derive(Clone, Copy)]
pub(crate) struct Step<'a> {
    pub(crate) text: &'a str,
    pub(crate) asked: Asked,
    expected: &'a str,
}

// A case: a kind of house, the addresses of its modules, and steps.
#[derive(Drop)]
pub(crate) struct Case<'a> {
    pub(crate) name: &'a str,
    pub(crate) house: &'a str,
    pub(crate) steps: Vec<Step<'a>>,
}

impl<'a> Step<'a> {
    // How often the step of a text `asked = expected` is taken, and the step. `9 x` before it stands for nine times.
    fn read(text: &'a str) -> Option<(usize, Self)> {
        let (asked, expected) = text.split_once('=')?;
        let (count, asked) = asked.split_once(" x ").unwrap_or(("1", asked));
        let step = Step {
            text,
            asked: Asked::read(asked.trim())?,
            expected: expected.trim(),
        };
        Some((count.trim().parse().ok()?, step))
    }

    // Whether that is the answer. What ends with `..` in the table says only how the answer begins.
    pub(crate) fn expects(&self, answer: &str) -> bool {
        match self.expected.strip_suffix("..") {
            Some(start) => answer.starts_with(start),
            None => answer == self.expected,
        }
    }
}

impl<'a> Case<'a> {
    // The case of a line `name: house; step; step`, if it is one.
    pub(crate) fn read(heap: Global, line: &'a str) -> Result<Option<Self>, AllocError> {
        let Some((name, rest)) = line.split_once(':') else {
            return Ok(None);
        };
        let Some((house, rest)) = rest.split_once(';') else {
            return Ok(None);
        };
        let mut steps = Vec::new(heap);
        for text in rest.split(';') {
            let Some((count, step)) = Step::read(text) else {
                return Ok(None);
            };
            for _ in 0..count {
                steps.push(step)?;
            }
        }
        let house = house.trim();
        Ok(Some(Case { name, house, steps }))
    }
}
