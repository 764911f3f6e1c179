//! A law on the keys of an index, as a function that does nothing: whoever calls it has the fact.

ghost use Rattle.nqs_order.specs.KeyOrder.{OrdersRows};

/// The order of the keys is that of the rows.
pub fn keys_order_rows()
    ensures { OrdersRows }
{}
