//! What the fields of a case set, and what they tell.
use crate::bytes::{self, changed, sealed};
use crate::merged::Inputs;
use crate::{elements, expressions, images, joins, operators, windows};
use cases::{Case, Field, Parts, Stop, Walker, check_fields, rest_of, text_of, words_of};
use ss_expr::ValueKind;
use std::alloc::Global;
use std::test::Fail;

/// What the fields of a case have set so far.
#[derive(Drop)]
pub(crate) struct JobParts {
    alloc: Global,
    operator: String,
    /// The event files of the inputs.
    inputs: Vec<Vec<u8>>,
    bounds: Vec<u64>,
    bytes: Vec<u8>,
}

impl Walker for JobParts {
    fn check(alloc: Global, case: &Case) -> Result<Result<(), Stop>, Fail> {
        check_fields::<JobParts>(alloc, case)
    }
}

impl Parts for JobParts {
    fn new(alloc: Global) -> JobParts {
        JobParts {
            alloc,
            operator: String::new(alloc),
            inputs: Vec::new(alloc),
            bounds: Vec::new(alloc),
            bytes: Vec::new(alloc),
        }
    }

    fn take(&mut self, field: &Field) -> Result<Option<Vec<u8>>, Fail> {
        let alloc = self.alloc;
        match field.word.as_str() {
            "operator" => {
                self.operator = String::from_str(alloc, field.rest.as_str())?;
                Ok(None)
            }
            "input" => {
                self.inputs.push(text_of(alloc, field)?)?;
                Ok(None)
            }
            "bounds" => {
                self.bounds = bounds_of(alloc, field.rest.as_str())?;
                Ok(None)
            }
            "bytes" => {
                self.bytes = hex::decode(alloc, rest_of(alloc, field)?)?;
                Ok(None)
            }
            "changed" => {
                self.bytes = changed(alloc, &self.bytes, &words_of(alloc, field)?)?;
                Ok(None)
            }
            "sealed" => {
                self.bytes = sealed(alloc, &self.bytes, &words_of(alloc, field)?)?;
                Ok(None)
            }
            _ => Ok(Some(self.asked(field)?)),
        }
    }
}

impl JobParts {
    /// What a field tells that asks for something.
    fn asked(&mut self, field: &Field) -> Result<Vec<u8>, Fail> {
        let alloc = self.alloc;
        let rest = rest_of(alloc, field)?;
        match field.word.as_str() {
            "key" => elements::key(alloc, &rest),
            "next" => elements::next(alloc, self.bounds.first().copied(), str::from_utf8(&rest)?),
            "line" => elements::line_of(alloc, str::from_utf8(&rest)?),
            "number" => expressions::worth(alloc, str::from_utf8(&rest)?, ValueKind::Num),
            "truth" => expressions::worth(alloc, str::from_utf8(&rest)?, ValueKind::Truth),
            "text" => expressions::worth(alloc, str::from_utf8(&rest)?, ValueKind::Text),
            _ => self.asked_of_words(field),
        }
    }

    /// The same of fields with words.
    fn asked_of_words(&mut self, field: &Field) -> Result<Vec<u8>, Fail> {
        let alloc = self.alloc;
        let words = words_of(alloc, field)?;
        match field.word.as_str() {
            "record" => {
                self.bytes = bytes::record(alloc, &words)?;
                bytes::digits(alloc, &self.bytes)
            }
            "frame" => {
                self.bytes = bytes::frame(alloc, &words)?;
                bytes::digits(alloc, &self.bytes)
            }
            "as_record" => bytes::as_record(alloc, &self.bytes, &words),
            "as_frame" => bytes::as_frame(alloc, &self.bytes, &words),
            "image" => images::read(alloc, self.operator.as_str(), &self.bounds, &words),
            asked => {
                let inputs = Inputs::of(alloc, &self.inputs)?;
                self.asked_of_inputs(asked, &inputs)
            }
        }
    }

    /// What an operator gives and holds over its inputs.
    fn asked_of_inputs(&self, asked: &str, inputs: &Inputs) -> Result<Vec<u8>, Fail> {
        let (alloc, operator) = (self.alloc, self.operator.as_str());
        match asked {
            "order" => inputs.order(alloc),
            "merged" => operators::told(alloc, operator, inputs),
            "alone" | "held" | "keys" if operator == "join" => joins::told(alloc, inputs, asked),
            "alone" | "held" => windows::told(alloc, operator, inputs, asked),
            _ => Err(Fail::new(format_args!("no word of a case: {asked}"))),
        }
    }
}

/// Numbers in a row.
fn bounds_of(alloc: Global, text: &str) -> Result<Vec<u64>, Fail> {
    let mut bounds = Vec::new(alloc);
    for word in text.split(" ") {
        bounds.push(word.parse::<u64>()?)?;
    }
    Ok(bounds)
}
