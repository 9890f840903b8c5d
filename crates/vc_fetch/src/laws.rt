//! Laws of the definitions: functions with no work to do, whose contracts are the laws. Each says that a
//! message, as it is written, is spelled by its bytes: so it is what reading them gives.

ghost use Rattle.std.specs.Prelude.{◌≤◌, ℕ, List, length};
ghost use Rattle.std.specs.List.{flat_map};
ghost use Rattle.vc_pkt.specs.Line.{spelling};
ghost use Rattle.vc_pkt.specs.Message.{IsSpelledBy};
ghost use Rattle.vc_fetch.specs.ListMessage.{list, SpellsList, list_lines};
ghost use Rattle.vc_fetch.specs.ErrorMessage.{SpellsError, error_lines, max_words};
ghost use Rattle.vc_fetch.specs.Advert.{AdvertText, IsWrittenAdvert, SpellsAdvert, advert_lines};
ghost use Rattle.vc_fetch.specs.Want.{WantText, IsWrittenWant, SpellsWant, want_lines};
ghost use Rattle.vc_fetch.specs.Pack.{PackText, IsWrittenPack, SpellsPack, pack_lines};

/// A written list message is read as one.
pub fn written_list_is_read()
    ensures { IsSpelledBy SpellsList list (flat_map spelling list_lines) }
{}

/// A written error message is read as that message.
pub fn written_error_is_read()
    ensures { (words : List ℕ) → length words ≤ max_words → IsSpelledBy SpellsError words (flat_map spelling (error_lines words)) }
{}

/// A written want message is read as that message.
pub fn written_want_is_read()
    ensures { (want : WantText) → IsWrittenWant want → IsSpelledBy SpellsWant want (flat_map spelling (want_lines want)) }
{}

/// A written pack is read as that pack.
pub fn written_pack_is_read()
    ensures { (pack : PackText) → IsWrittenPack pack → IsSpelledBy SpellsPack pack (flat_map spelling (pack_lines pack)) }
{}

/// A written advertisement is read as that advertisement.
pub fn written_advert_is_read()
    ensures { (advert : AdvertText) → IsWrittenAdvert advert → IsSpelledBy SpellsAdvert advert (flat_map spelling (advert_lines advert)) }
{}
