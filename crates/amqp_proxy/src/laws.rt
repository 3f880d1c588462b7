//! Laws of headers, whatever cuts their bytes. Each function does nothing: its contract is the law.
ghost use Rattle.std.specs.Prelude.{◌≡◌, ◌≤◌, ◌++◌, [], ℕ, List, None, Some, length};
ghost use Rattle.amqp_proxy.specs.Headers.{saying, Four, Six};
ghost use Rattle.amqp_proxy.specs.Streams.{passage, did, Passed};
ghost use Rattle.amqp_proxy.specs.Tlvs.{Tlv, values};
ghost use Rattle.amqp_proxy.specs.Writers.{connection_bytes, header_bytes, tlvs_bytes, certified, Ends, AreEnds, AreNamed};

/// The header of a connection over TCP gives its source, and the name exactly if the client sent a certificate and it
/// was verified. What follows is handed on, and nothing else.
///
/// Any TLVs may be in it, in any order, also in the SSL TLV.
pub fn a_header_gives_the_source_and_the_name()
    ensures four { (e : Ends) (ts : List Tlv) (client verify : ℕ) (name behind : List ℕ)
        → AreEnds 4 e → length (tlvs_bytes ts) ≤ 508 → AreNamed ts client verify name
        → passage (connection_bytes 0x11 e ts ++ behind) ≡ did (Passed (saying (Some (Four e.source e.port)) (certified client verify name))) behind }
    ensures six { (e : Ends) (ts : List Tlv) (client verify : ℕ) (name behind : List ℕ)
        → AreEnds 16 e → length (tlvs_bytes ts) ≤ 484 → AreNamed ts client verify name
        → passage (connection_bytes 0x21 e ts ++ behind) ≡ did (Passed (saying (Some (Six e.source e.port)) (certified client verify name))) behind }
{}

/// Without an SSL TLV it gives no name.
pub fn a_header_without_ssl_gives_no_name()
    ensures four { (e : Ends) (ts : List Tlv) (behind : List ℕ)
        → AreEnds 4 e → length (tlvs_bytes ts) ≤ 508 → values 0x20 ts ≡ []
        → passage (connection_bytes 0x11 e ts ++ behind) ≡ did (Passed (saying (Some (Four e.source e.port)) None)) behind }
    ensures six { (e : Ends) (ts : List Tlv) (behind : List ℕ)
        → AreEnds 16 e → length (tlvs_bytes ts) ≤ 484 → values 0x20 ts ≡ []
        → passage (connection_bytes 0x21 e ts ++ behind) ≡ did (Passed (saying (Some (Six e.source e.port)) None)) behind }
{}

/// A header with the command LOCAL says nothing, whatever is in it.
pub fn a_local_header_says_nothing()
    ensures { (family : ℕ) (body behind : List ℕ)
        → length body ≤ 520 → passage (header_bytes 0 family body ++ behind) ≡ did (Passed (saying None None)) behind }
{}
