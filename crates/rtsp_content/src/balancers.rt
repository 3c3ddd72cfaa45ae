//! The balancers of a configuration.

ghost use Rattle.std.specs.Prelude.{◌≡◌, ◌≤◌, [], length, IfOk};
ghost use Rattle.toml.specs.View.{view, table_view, array_view};
ghost use Rattle.rtsp_text.specs.Results.{GivesBy};
ghost use Rattle.rtsp_content.specs.declared.fault.TableFault.TheVariants.{OutOfMemory};
ghost use Rattle.rtsp_content.specs.Balancers.{as_address, beside, balancers_of};
ghost use Rattle.rtsp_content.specs.Tables.{each_from};

use crate::fault::TableFault;
use crate::keys::{list, value_at};
use crate::limits::MAX_BALANCERS;
use rtsp_proxy::read_address;
use std::alloc::Global;
use toml::value::Array;
use toml::{Table, Value};

fn address(value: &Value) -> Result<u32, TableFault>
    ensures { result ≡ as_address (view value.now) }
{
    let Some(text) = value.as_str() else {
        return Err(TableFault::BadValue);
    };
    match read_address(text.as_bytes()) {
        Some(address) => Ok(address),
        None => Err(TableFault::BadValue),
    }
}

fn addresses(alloc: Global, values: &Array) -> Result<Vec<u32>, TableFault>
    ensures { GivesBy OutOfMemory (λ v. v.items) result (each_from beside [] (array_view values.now)) }
{
    let mut addresses = Vec::new(alloc);
    for value in values {
        let address = address(value)?;
        addresses.push(address)?;
    }
    Ok(addresses)
}

/// The addresses of which connections begin with a header, of the table `[server]`. None where nothing
/// is said.
pub(crate) fn read_balancers(alloc: Global, server: &Table) -> Result<Vec<u32>, TableFault>
    ensures { GivesBy OutOfMemory (λ v. v.items) result (balancers_of (table_view server.now)) }
{
    match value_at(server, "proxy") {
        Some(value) => addresses(alloc, list(value, MAX_BALANCERS)?),
        None => Ok(Vec::new(alloc)),
    }
}
