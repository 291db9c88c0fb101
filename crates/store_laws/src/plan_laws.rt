//! Laws of planned transactions, each the contract of a function that does nothing.
ghost use Rattle.store_laws.specs.PlanLaws.{PlanIsEffect, PlanRefusesFirst, StorePlansTxn};

/// The changes that are planned for a transaction are those that its operations make one after the
/// other.
pub fn plan_is_effect()
    ensures { PlanIsEffect }
{}

/// The refusal that is planned for a transaction is the first one of its operations as they are
/// made.
pub fn plan_refuses_first()
    ensures { PlanRefusesFirst }
{}

/// A store plans of a transaction what the model does in the world that it stands for.
pub fn store_plans_txn()
    ensures { StorePlansTxn }
{}
