ghost use Rattle.ss_elem.specs.KeyOrder.{KeysCompareAsTexts, KeysCompareAsNumbers};

/// Keys compare (`Ord`) as their texts do: byte by byte, and of two texts that begin alike the shorter one first.
/// That is the order of their numbers too.
pub fn key_order_is_text_order()
    ensures texts { KeysCompareAsTexts }
    ensures numbers { KeysCompareAsNumbers }
{}
