//! What follows of the definitions alone.
ghost use Rattle.odata_filter.specs.FilterGrammar.{IsFilter};
ghost use Rattle.odata_filter.specs.Listings.{ListsAreOne};
ghost use Rattle.odata_filter.specs.OrderGrammar.{IsOrder};
ghost use Rattle.odata_filter.specs.Readings.{HasOneReading};

/// A text is one filter at most, or is refused at one place, but for want of memory.
pub fn filters_have_one_reading()
    ensures { HasOneReading IsFilter }
{}

/// A text is one order at most, or is refused at one place, but for want of memory.
pub fn orders_have_one_reading()
    ensures { HasOneReading IsOrder }
{}

/// The list of topics that a listing asks for is one.
pub fn lists_are_one()
    ensures { ListsAreOne }
{}
