ghost use Rattle.std.specs.Prelude.{◌≡◌};
ghost use Rattle.mx_parquet.specs.declared.error.Flaw.TheVariants as flaws;
ghost use Rattle.mx_parquet.specs.Headers as headers;
ghost use Rattle.mx_parquet.specs.Headers.{data_page_in, header_in};

use crate::error::{Feature, Flaw};
use crate::fields::{count_of, int_of, is, struct_of};
use crate::groups::counted;
use mx_thrift::Field;

/// How many values and bytes a page has.
#[derive(Clone, Copy, Debug, Drop)]
pub(crate) struct PageSize {
    pub(crate) value_count: usize,
    pub(crate) size: usize,
}

/// How many values and bytes the header of a page says that it has.
#[tactic(auto, unfolding(crate::specs::Headers::header_in))]
pub(crate) fn size_of(fields: &[Field]) -> Result<PageSize, Flaw>
    ensures { result ≡ header_in fields.now }
{
    let _data_page = needed(int_of(fields, 1)?, 0, unsupported(Feature::Page))?;
    let size = count_of(i64::from(int_of(fields, 2)?))?;
    let _same = counted(size, i64::from(int_of(fields, 3)?))?;
    data_page_of(size, struct_of(fields, 5)?)
}

/// How many values a data page of so many bytes has.
#[tactic(auto, unfolding(crate::specs::Headers::data_page_in))]
fn data_page_of(size: usize, inner: &[Field]) -> Result<PageSize, Flaw>
    ensures { result ≡ data_page_in size inner.now }
{
    let value_count = count_of(i64::from(int_of(inner, 1)?))?;
    let _plain = needed(int_of(inner, 2)?, 0, unsupported(Feature::Encoding))?;
    let _levels = needed(int_of(inner, 3)?, 3, Flaw::Bad)?;
    let _repeated = needed(int_of(inner, 4)?, 3, Flaw::Bad)?;
    Ok(PageSize { value_count, size })
}

fn unsupported(what: Feature) -> Flaw
    ensures { result ≡ flaws.Unsupported what }
{
    Flaw::Unsupported { what }
}

/// A number that has to be this one, or what is wrong where it is not.
fn needed(number: i32, wanted: u8, flaw: Flaw) -> Result<i32, Flaw>
    ensures { result ≡ headers.needed_number wanted flaw number }
{
    if is(number, wanted) {
        Ok(number)
    } else {
        Err(flaw)
    }
}
