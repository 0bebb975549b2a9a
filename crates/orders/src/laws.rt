//! Laws of texts of orders.
ghost use Rattle.std.specs.Prelude.{◌≡◌, ◌<◌, ℕ, All, Contains, List, None, length};
ghost use Rattle.coflow_units.specs.Flows.{IsDistinct};
ghost use Rattle.orders.specs.Orders.{order_in, text_checks};
ghost use Rattle.text_fields.specs.Checks.{first_fault};
ghost use Rattle.text_fields.specs.Fields.{Text};

/// An order without a fault has each coflow once, where ids differ.
pub fn orders_have_each_coflow_once()
    ensures distinct { (text : Text) (ids : List ℕ) → IsDistinct ids → first_fault (text_checks text ids) ≡ None →
        IsDistinct (order_in text ids) }
    ensures known { (text : Text) (ids : List ℕ) → first_fault (text_checks text ids) ≡ None →
        All (λ c. c < length ids) (order_in text ids) }
    ensures all { (text : Text) (ids : List ℕ) (c : ℕ) → IsDistinct ids → first_fault (text_checks text ids) ≡ None →
        c < length ids → Contains (order_in text ids) c }
{}
