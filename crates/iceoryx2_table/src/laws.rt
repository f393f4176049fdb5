//! Laws that are true of every stored world.

ghost use Rattle.iceoryx2_table.specs.Spending.{SpendingIsLocking};

/// The laws of numbers that are spent.
pub fn laws_of_spending()
    // Spending numbers is locking the service under each of them and giving it up again, and nothing else.
    ensures { SpendingIsLocking }
{}
