//! What holds of both edits together, as the contracts of functions that do nothing.

ghost use Rattle.std.specs.Prelude.{◌≡◌, ℕ, List, ◌∷◌, ◌++◌, length, map, Some};
ghost use Rattle.packet_headers.specs.declared.items.LayerAt.{LayerAt};
ghost use Rattle.packet_headers.specs.declared.items.ItemKind.TheVariants as kind;
ghost use Rattle.packet_headers.specs.declared.edits.Edit.{Edit};
ghost use Rattle.packet_headers.specs.Layers.{LieWithin, layers};
ghost use Rattle.header_edit.specs.Checksum.{ones_sum};
ghost use Rattle.header_edit.specs.Field.{FitsField};
ghost use Rattle.header_edit.specs.Layers.{edit_layers, first, is_transport, place_of};
ghost use Rattle.header_edit.specs.Frame.{bytes_at, edit_bytes};
ghost use Rattle.header_edit.specs.Right.{IsRight, ipv4_len, IsWholeIpv4, IsOneStack, HasOneStack, covered, AreCovered};
ghost use Rattle.header_edit.specs.Shown.{AreBytes, AllShow};

/// Both edits agree: where the layers show a frame's bytes, the edited layers show the edited bytes.
/// The layers that `parse` finds show the bytes. Of the layers the edit of bytes takes the kinds and
/// the offsets alone.
pub fn edits_agree()
    ensures edits { (edit : Edit) → (ls : List LayerAt) → (frame : List ℕ)
        → FitsField edit → AreBytes frame → LieWithin 0 (length frame) ls
        → AllShow frame ls → AllShow (edit_bytes edit ls frame) (edit_layers edit ls) }
    ensures parsed { (frame : List ℕ) → AllShow frame (layers frame) }
    ensures places { (edit : Edit) → (ls others : List LayerAt) → (frame : List ℕ)
        → map place_of others ≡ map place_of ls → edit_bytes edit others frame ≡ edit_bytes edit ls frame }
{}

/// The one's complement sum over an IPv4 header with its options is the same after an edit, so that a
/// right checksum stays right and a wrong one wrong by as much.
pub fn ipv4_sum_is_kept()
    ensures kept { (edit : Edit) → (before behind : List LayerAt) → (header : LayerAt) → (frame : List ℕ)
        → AreBytes frame → LieWithin 0 (length frame) (before ++ header ∷ behind)
        → IsWholeIpv4 frame header behind
        → let whole = bytes_at header.offset (ipv4_len header.offset frame) in
        ones_sum (whole (edit_bytes edit (before ++ header ∷ behind) frame)) ≡ ones_sum (whole frame) }
    ensures right { (edit : Edit) → (before behind : List LayerAt) → (header : LayerAt) → (frame : List ℕ)
        → AreBytes frame → LieWithin 0 (length frame) (before ++ header ∷ behind)
        → IsWholeIpv4 frame header behind
        → let whole = bytes_at header.offset (ipv4_len header.offset frame) in
        IsRight (whole frame) → IsRight (whole (edit_bytes edit (before ++ header ∷ behind) frame)) }
    // each IPv4 header that `parse` finds is such a one
    ensures parsed { (frame : List ℕ) → (before behind : List LayerAt) → (header : LayerAt)
        → layers frame ≡ before ++ header ∷ behind → header.layer.kind ≡ kind.Ipv4
        → IsWholeIpv4 frame header behind }
{}

/// The same of the sum over a pseudo-header and the bytes from a transport header on, in an outer
/// stack with one network header and one transport header behind it. A UDP checksum of 0 says that
/// none was made, and has no such sum.
pub fn transport_sum_is_kept()
    ensures kept { (edit : Edit) → (below between behind : List LayerAt) → (network transport : LayerAt)
        → (frame : List ℕ) → (count : ℕ) → (rest : List ℕ)
        → AreBytes frame → LieWithin 0 (length frame) (below ++ network ∷ between ++ transport ∷ behind)
        → IsOneStack below network between transport behind → AreCovered rest transport count frame
        → let sum = λ (bytes : List ℕ). ones_sum (covered rest network transport count bytes) in
        sum (edit_bytes edit (below ++ network ∷ between ++ transport ∷ behind) frame) ≡ sum frame }
    ensures right { (edit : Edit) → (below between behind : List LayerAt) → (network transport : LayerAt)
        → (frame : List ℕ) → (count : ℕ) → (rest : List ℕ)
        → AreBytes frame → LieWithin 0 (length frame) (below ++ network ∷ between ++ transport ∷ behind)
        → IsOneStack below network between transport behind → AreCovered rest transport count frame
        → IsRight (covered rest network transport count frame)
        → IsRight (covered rest network transport count (edit_bytes edit (below ++ network ∷ between ++ transport ∷ behind) frame)) }
    // where `parse` finds a transport header in the outer stack, the stack is such a one
    ensures parsed { (frame : List ℕ) → (transport : LayerAt)
        → first is_transport (layers frame) ≡ Some transport → HasOneStack (layers frame) transport }
{}
