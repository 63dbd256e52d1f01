// Checked operators on time series.
use vtl_syntax::words::{FillSpan, TimeFunction};
use vtl_values::Integer;

/// An operator on time series. `period` is the number of the identifier `TIME_PERIOD`.
#[derive(Clone, Copy, Debug, PartialEq, Eq)]
pub enum CheckedTime {
    /// `flow_to_stock(ds)`, `stock_to_flow(ds)`, `period_indicator(ds)`
    Of { function: TimeFunction, period: u64 },
    /// `timeshift(ds, places)`
    Shift { places: Integer, period: u64 },
    /// `fill_time_series(ds, span)`
    Fill { span: FillSpan, period: u64 },
}
