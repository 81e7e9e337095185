ghost use Rattle.std.specs.Prelude.{◌≡◌};
ghost use Rattle.ov_db.specs.Faults.{by_conversion, by_text};

use ov_conversion::ConversionFault;
use ov_keeper::{KeepFault, Keeper};
use ov_schema::{Schema, SchemaFault};
use ov_schema_text::SchemaFileFault;
use ov_stored::OpenFault;
use std::fmt;
use thiserror::Error;

/// The fault of an open, if the stored text is no schema for this reason.
pub(crate) fn by_text(fault: SchemaFileFault) -> OpenFault
    ensures { result ≡ by_text fault }
{
    match fault {
        SchemaFileFault::Memory | SchemaFileFault::Refused(SchemaFault::Memory) => {
            OpenFault::Keeping(KeepFault::Memory)
        }
        _ => OpenFault::BadBody,
    }
}

/// The fault of a conversion of a database, if its rows are not converted for this reason.
pub(crate) fn by_conversion(fault: ConversionFault) -> OpenFault
    ensures { result ≡ by_conversion fault }
{
    match fault {
        ConversionFault::Memory => OpenFault::Keeping(KeepFault::Memory),
        ConversionFault::NotConvertible => OpenFault::NotConvertible,
    }
}

/// A refused open: the reason, with the keeper and the schema given back.
#[derive(Drop, Error)]
#[error("{fault}")]
pub struct RefusedOpen<K: Keeper> {
    pub fault: OpenFault,
    pub keeper: K,
    pub schema: Schema,
}

impl<K: Keeper> fmt::Debug for RefusedOpen<K> {
    fn fmt<W: fmt::Write>(&self, f: &mut fmt::Formatter<W>) -> fmt::Result {
        f.debug_struct("RefusedOpen")
            .field("fault", &self.fault)
            .finish_non_exhaustive()
    }
}
