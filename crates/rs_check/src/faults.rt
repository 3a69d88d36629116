//! The faults of a text that are told, one after the other: each is the first fault of the text with those before
//! it mended.

ghost use Rattle.std.specs.Prelude.{◌≡◌, Err, IfOk, IfSome, string_bytes};
ghost use Rattle.rs_policy.specs.Documents.{config_of};

use crate::{tell, tell_line};
use rs_findings::{Source, is_new, line_about, mended, syntax_line};
use rs_places::document_of;
use rs_policy::{Config, ConfigFault};
use rs_start::configuration::ConfigurationFault;
use std::alloc::{AllocError, Global};
use toml::value::Value;

/// The most faults that are told.
const MOST: usize = 20;

/// How often a text is mended.
const MENDINGS: usize = 200;

/// The faults of a text so far, and those of them that were told.
#[derive(Drop)]
struct Faults {
    found: Vec<ConfigFault>,
    told: Vec<ConfigFault>,
}

impl Faults {
    /// Takes the next fault, and tells it if it is new. The first was printed. Answers whether more may be told.
    fn take<R: Eprint>(
        &mut self,
        rt: &R,
        alloc: Global,
        source: &Source<'_>,
        document: &Value,
        fault: ConfigFault,
    ) -> Result<bool, AllocError> {
        if is_new(&self.found, &self.told, &fault) {
            if self.told.len() == MOST {
                tell(rt, "there are more");
                return Ok(false);
            }
            if !self.told.is_empty() {
                ConfigurationFault::Text(fault).report(rt);
            }
            tell_line(rt, line_about(alloc, source, document, &fault))?;
            self.told.push(fault)?;
        }
        self.found.push(fault)?;
        Ok(true)
    }
}

/// Tells more of the first fault of a text, which was printed, and then the others that don't hang on
/// those before them.
fn tell_document<R: Eprint>(
    rt: &R,
    alloc: Global,
    source: &Source<'_>,
    document: &Value,
    first: ConfigFault,
) -> Result<(), AllocError> {
    let mut faults = Faults {
        found: Vec::new(alloc),
        told: Vec::new(alloc),
    };
    let mut text = String::from_str(alloc, source.text)?;
    let mut fault = first;
    for _ in 0..MENDINGS {
        if !faults.take(rt, alloc, source, document, fault)? {
            break;
        }
        match next(alloc, &mut text, &fault)? {
            None => break,
            Some(next) => fault = next,
        }
    }
    Ok(())
}

/// The same, or why a text is no document.
pub(crate) fn tell_faults<R: Eprint>(
    rt: &R,
    alloc: Global,
    source: &Source<'_>,
    first: ConfigFault,
) -> Result<(), AllocError> {
    match toml::table_from_str(alloc, source.text) {
        Ok(document) => tell_document(rt, alloc, source, &Value::Table(document), first),
        Err(error) if error.is_memory() => Err(AllocError),
        Err(error) => tell_line(rt, syntax_line(alloc, &source.files, &error)),
    }
}

/// Mends the first fault of a text, and answers the next one.
fn next(
    alloc: Global,
    text: &mut String,
    fault: &ConfigFault,
) -> Result<Option<ConfigFault>, AllocError>
    ensures { IfOk result (λ o. IfSome o (λ next. config_of (string_bytes text.new) ≡ Err next)) }
{
    let Ok(Some(document)) = document_of(alloc, text.as_str()) else {
        return Ok(None);
    };
    let Some(mended) = mended(alloc, text.as_str(), &document, fault)? else {
        return Ok(None);
    };
    let next = match Config::read(alloc, mended.as_str()) {
        Ok(_) | Err(ConfigFault::Syntax) => None,
        Err(ConfigFault::OutOfMemory) => return Err(AllocError),
        Err(next) => Some(next),
    };
    *text = mended;
    Ok(next)
}
