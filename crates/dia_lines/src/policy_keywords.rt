// The keywords of the policies.

ghost use Rattle.std.specs.Prelude.{◌≡◌};
ghost use Rattle.dia_lines.specs.PolicyKeywords.{policy_of, keyword_of};

use dbp_plan::Policy;
use dia_tokens::Keyword;

/// The keyword that names the policy.
pub fn policy_keyword(policy: Policy) -> Keyword
    ensures { result ≡ keyword_of policy }
{
    match policy {
        Policy::Fp => Keyword::Fp,
        Policy::Edf => Keyword::Edf,
    }
}

// The policy that the keyword names, if it names one.
pub(crate) fn policy_of(keyword: Keyword) -> Option<Policy>
    ensures { result ≡ policy_of keyword }
{
    match keyword {
        Keyword::Fp => Some(Policy::Fp),
        Keyword::Edf => Some(Policy::Edf),
        _ => None,
    }
}
