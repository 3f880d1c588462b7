//! Laws of exchanges, whatever cuts their bytes. Each function does nothing: its contract is the law.
ghost use Rattle.std.specs.Prelude.{◌≡◌, ℕ, ◌+◌, ◌≤◌, List, ◌++◌, [], length, Some, true, false};
ghost use Rattle.amqp_types.specs.Spelling.{Spells};
ghost use Rattle.amqp_types.specs.Trees.{Tree, depth_of};
ghost use Rattle.amqp_sasl.specs.declared.header.TheConstants.{SASL_HEADER};
ghost use Rattle.amqp_sasl.specs.declared.offer.Offer.{Offer};
ghost use Rattle.amqp_sasl.specs.Answers.{mechanisms_frame, challenge_frame, outcome_frame};
ghost use Rattle.amqp_sasl.specs.Claims.{Claim, Claims, Lacks, stated_in, plain_in};
ghost use Rattle.amqp_sasl.specs.Exchanges.{exchange, did, Passed, Broken};
ghost use Rattle.amqp_sasl.specs.Frames.{framed};
ghost use Rattle.amqp_sasl.specs.Inits.{Fields, init_in, response_in};

/// A peer that sends the header and, in any spelling, a `sasl-init` whose mechanism is offered, passes if the host admits it.
/// What follows is handed on, and nothing else. If the host refuses it, nothing is. [5.3.2]
pub fn an_init_is_answered()
    ensures admitted { (offer : Offer) (t : Tree) (init : Fields) (claim : Claim) (body behind : List ℕ)
        → Spells t body → depth_of t ≤ 2 → length body ≤ 504 → init_in t ≡ Some init → stated_in offer init ≡ Claims claim
        → exchange offer (Some true) (SASL_HEADER ++ (framed body ++ behind)) ≡ did Passed ((SASL_HEADER ++ mechanisms_frame offer) ++ outcome_frame 0) behind }
    ensures refused { (offer : Offer) (t : Tree) (init : Fields) (claim : Claim) (body behind : List ℕ)
        → Spells t body → depth_of t ≤ 2 → length body ≤ 504 → init_in t ≡ Some init → stated_in offer init ≡ Claims claim
        → exchange offer (Some false) (SASL_HEADER ++ (framed body ++ behind)) ≡ did Broken ((SASL_HEADER ++ mechanisms_frame offer) ++ outcome_frame 1) [] }
{}

/// A peer whose `sasl-init` of PLAIN has no response is challenged. If it then sends, in any spelling, a `sasl-response` of PLAIN, it
/// passes if the host admits it. [5.3.2, 5.3.3.3]
pub fn a_challenge_is_answered()
    ensures admitted { (offer : Offer) (t u : Tree) (init : Fields) (response : List ℕ) (claim : Claim) (body reply behind : List ℕ)
        → Spells t body → depth_of t ≤ 2 → init_in t ≡ Some init → stated_in offer init ≡ Lacks
        → Spells u reply → depth_of u ≤ 2 → response_in u ≡ Some response → plain_in response ≡ Some claim → length body + length reply ≤ 496
        → exchange offer (Some true) (SASL_HEADER ++ (framed body ++ (framed reply ++ behind)))
        ≡ did Passed ((SASL_HEADER ++ mechanisms_frame offer) ++ (challenge_frame ++ outcome_frame 0)) behind }
    ensures refused { (offer : Offer) (t u : Tree) (init : Fields) (response : List ℕ) (claim : Claim) (body reply behind : List ℕ)
        → Spells t body → depth_of t ≤ 2 → init_in t ≡ Some init → stated_in offer init ≡ Lacks
        → Spells u reply → depth_of u ≤ 2 → response_in u ≡ Some response → plain_in response ≡ Some claim → length body + length reply ≤ 496
        → exchange offer (Some false) (SASL_HEADER ++ (framed body ++ (framed reply ++ behind)))
        ≡ did Broken ((SASL_HEADER ++ mechanisms_frame offer) ++ (challenge_frame ++ outcome_frame 1)) [] }
{}
