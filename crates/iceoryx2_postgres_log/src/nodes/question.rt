//! The texts of the questions about nodes.

ghost use Rattle.std.specs.Prelude.{◌≡◌, IfOk, string_bytes};
ghost use Rattle.iceoryx2_postgres_log.specs.NodeQuestions.{claiming, claiming_dead, releasing, claiming_free, listing};

use crate::patience::lock_wait;
use std::alloc::{AllocError, Global};

/// The session claims the node, and waits for the session that has it.
#[tactic(auto, unfolding(crate::specs::NodeQuestions::claiming))]
pub fn claiming(
    alloc: Global,
    name: &str,
    node: u64,
    patience_millis: u64,
) -> Result<String, AllocError>
    ensures { IfOk result (λ text. string_bytes text ≡ claiming name.now node patience_millis) }
{
    let wait = lock_wait(patience_millis);
    format!(in alloc;
        "set lock_timeout = {wait}\\; select wulameron.claim('{name}', {node}, true);\n\\echo claimed :SQLSTATE\n"
    )
}

/// The session claims the node, and waits for nobody.
#[tactic(auto, unfolding(crate::specs::NodeQuestions::claiming_dead))]
pub fn claiming_dead(alloc: Global, name: &str, node: u64) -> Result<String, AllocError>
    ensures { IfOk result (λ text. string_bytes text ≡ claiming_dead name.now node) }
{
    format!(in alloc;
        "select wulameron.claim('{name}', {node}, false);\n\\echo claimed :SQLSTATE\n"
    )
}

/// The session gives its claim of the node back.
#[tactic(auto, unfolding(crate::specs::NodeQuestions::releasing))]
pub fn releasing(alloc: Global, name: &str, node: u64) -> Result<String, AllocError>
    ensures { IfOk result (λ text. string_bytes text ≡ releasing name.now node) }
{
    format!(in alloc; "select wulameron.release('{name}', {node});\n\\echo released :SQLSTATE\n")
}

/// The session claims the lowest free node.
#[tactic(auto, unfolding(crate::specs::NodeQuestions::claiming_free))]
pub fn claiming_free(alloc: Global, name: &str, patience_millis: u64) -> Result<String, AllocError>
    ensures { IfOk result (λ text. string_bytes text ≡ claiming_free name.now patience_millis) }
{
    let wait = lock_wait(patience_millis);
    format!(in alloc;
        "set lock_timeout = {wait}\\; select wulameron.claim_free('{name}');\n\\echo claimed :SQLSTATE\n"
    )
}

/// Each node that was ever claimed.
#[tactic(auto, unfolding(crate::specs::NodeQuestions::listing))]
pub fn listing(alloc: Global, name: &str) -> Result<String, AllocError>
    ensures { IfOk result (λ text. string_bytes text ≡ listing name.now) }
{
    format!(in alloc; "select wulameron.nodes('{name}');\n\\echo listed :SQLSTATE\n")
}
