//! The rules of a bundle, by their numbers.

ghost use Rattle.std.specs.Prelude.{◌≡◌, true};
ghost use Rattle.std.specs.List.{list_all};
ghost use Rattle.dioc_terms.specs.Equality.{member};
ghost use Rattle.dioc_terms.specs.Plain.{plain};
ghost use Rattle.dioc_terms.specs.Terms.{mentions, term};
ghost use Rattle.global_follower.specs.Conditions.{joins_nothing};

use dioc_terms::{
    Bundle, Choreo, Name, Role, Rule, ScopeHead, Store, Value, conditions_join_nothing, is_among,
    test,
};
use limits::TOP_LEVEL;

/// The rules of a bundle, by their numbers. Their conditions join no texts.
#[derive(Clone, Copy)]
pub(crate) struct RuleList<'a> {
    pub bundle: &'a Bundle,
    ghost join_nothing: { list_all joins_nothing (plain bundle.now).rules ≡ true },
}

impl<'a> RuleList<'a> {
    ghost use Rattle.std.specs.Prelude.{◌≡◌, option_map, slice_get, All};
    ghost use Rattle.dioc_terms.specs.Bundles.{IsFormedRule};
    ghost use Rattle.dioc_terms.specs.KeptStores.{store_of};
    ghost use Rattle.dioc_terms.specs.Plain.{plain, plain_rule};
    ghost use Rattle.dioc_terms.specs.Rules.{fits, is_named, no_lower};
    ghost use Rattle.global_follower.specs.KeptBooks.{book_in, rules_of};

    /// The rules of the bundle, which are formed.
    #[tactic(auto, using(crate::proofs::RuleLemmas::formed_join_nothing))]
    pub(crate) fn new(bundle: &'a Bundle) -> RuleList<'a>
        requires { All IsFormedRule (plain bundle.now).rules }
        ensures { plain result.bundle.now ≡ plain bundle.now }
    {
        conditions_join_nothing();
        RuleList { bundle }
    }

    /// The rule of that number, `None` exactly where there is none.
    pub(crate) fn get(self, number: u32) -> Option<&'a Rule>
        ensures { option_map (λ rule. plain_rule rule.now) result
            ≡ slice_get (rules_of self.entry) number }
    {
        self.bundle.rules.as_slice().get(number as usize)
    }

    /// Whether the rule of that number has that name.
    pub(crate) fn is_named(self, name: &Name, number: u32) -> bool
        ensures { result ≡ is_named (rules_of self.entry) name.now number }
    {
        match self.get(number) {
            Some(rule) => rule.name == *name,
            None => false,
        }
    }

    /// Whether rule m has no lower priority than rule n.
    pub(crate) fn no_lower(self, m: u32, n: u32) -> bool
        ensures { result ≡ no_lower (rules_of self.entry) m n }
    {
        match (self.get(m), self.get(n)) {
            (Some(one), Some(other)) => other.priority <= one.priority,
            _ => true,
        }
    }

    /// Whether the rule of that number fits the scope, with the environment and its leader's store.
    #[tactic(auto, using(crate::proofs::RuleLemmas::no_join_at))]
    pub(crate) fn fits(
        self,
        env: &[(Name, Value)],
        head: &ScopeHead,
        store: &Store,
        number: u32,
    ) -> bool
        ensures { result ≡ fits (rules_of self.entry) (book_in env.now) head.now
            (store_of store.now) number }
    {
        match self.get(number) {
            Some(rule) => {
                test(&rule.cond, store, head.props.as_slice(), env)
                    && are_among(&rule.body, head.roles.as_slice())
                    && head.level < TOP_LEVEL
            }
            None => false,
        }
    }
}

/// Whether all roles that the body mentions are among these.
#[tactic(auto, using(crate::proofs::BookLemmas::all_append))]
fn are_among(body: &Choreo, roles: &[Role]) -> bool
    ensures { result ≡ list_all (λ q. member q roles.now) (mentions (term body.now)) }
{
    match body {
        Choreo::Skip => true,
        Choreo::Com { from, to, .. } => is_among(from, roles) && is_among(to, roles),
        Choreo::Set { role, .. } | Choreo::Input { role, .. } => is_among(role, roles),
        Choreo::Seq(first, second) | Choreo::Par(first, second) => {
            are_among(first, roles) && are_among(second, roles)
        }
        Choreo::If {
            leader,
            yes,
            no,
            ..
        } => is_among(leader, roles) && are_among(yes, roles) && are_among(no, roles),
        Choreo::While { leader, body, .. } => is_among(leader, roles) && are_among(body, roles),
        Choreo::Scope {
            leader,
            body,
            extra,
            ..
        } => {
            is_among(leader, roles) && are_among(body, roles) && all_among(extra.as_slice(), roles)
        }
    }
}

fn all_among(some: &[Role], roles: &[Role]) -> bool
    ensures { result ≡ list_all (λ q. member q roles.now) some.now }
{
    some.iter().all(|role| is_among(role, roles))
}
