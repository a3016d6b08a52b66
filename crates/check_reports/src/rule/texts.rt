//! What each code of `check` means.

use std::alloc::{AllocError, Global};

/// What a code means.
#[derive(Clone, Copy)]
pub struct RuleText<'a> {
    /// The code, such as `R04`.
    pub code: &'a str,
    /// The name, such as `WrongKind`.
    pub name: &'a str,
    /// What is found.
    pub cause: &'a str,
    /// What to do.
    pub cure: &'a str,
    /// A sentence of `check`.
    pub example: &'a str,
}

impl<'a> RuleText<'a> {
    /// The rule in a line of the code, the name, the cause, the cure and the example.
    fn of_line(line: &'a str) -> Option<RuleText<'a>> {
        let (code, rest) = line.split_once('|')?;
        let (name, rest) = rest.split_once('|')?;
        let (cause, rest) = rest.split_once('|')?;
        let (cure, example) = rest.split_once('|')?;
        Some(RuleText {
            code,
            name,
            cause,
            cure,
            example,
        })
    }

    /// Whether a word is the code or the name, in capital or small letters.
    pub(crate) fn is_called(&self, word: &str) -> bool {
        word.eq_ignore_ascii_case(self.code) || word.eq_ignore_ascii_case(self.name)
    }

    /// The word for the severity: warnings have the letter W, but for the clash of kinds, and notes the letter N.
    pub fn severity(&self) -> &'static str {
        if self.code.starts_with('N') {
            "note"
        } else if self.code.starts_with('W') && self.code != CLASH {
            "warning"
        } else {
            "error"
        }
    }
}

/// What each code means, in the order of docs/POOLS.md.
pub fn rule_texts(alloc: Global) -> Result<Vec<RuleText<'static>>, AllocError> {
    let mut rules = Vec::new(alloc);
    for line in TEXTS.split('\n') {
        if let Some(rule) = RuleText::of_line(line) {
            rules.push(rule)?;
        }
    }
    Ok(rules)
}

/// The code of two objects of different kinds with one ID.
const CLASH: &str = "W07";

/// A line for each code.
const TEXTS: &str = "\
P01|Truncated|the bytes end inside a record: the file is cut short, or a count of children, macros, points or bytes is greater than the list behind it|compare the counts of the record, and of the one before it, with their lists; send the rest of the file|the bytes end inside this record: ID 1000 `main`, type 1 Data Mask; a count in the record before it, Font Attributes 104 at 2022, may be wrong
P02|UnknownType|the type of a record is none of VT version 3: an object of a later version, or the record before it is longer than its counts say|leave the object out for a terminal of version 3; check the counts of the record before it|VT version 3 has no object of this type: ID 400, type 34 Window Mask, of version 4; a count in the record before it, Picture Graphic 390 at 2022, may be wrong
P03|LeftOutType|a record is an auxiliary function or input, of the types 29 to 33, which this terminal does not have|leave the object out for this terminal|an auxiliary function or input, which this terminal does not have: ID 400 `aux_fold`, type 31 Auxiliary Function Type 2
P04|Scale|the scale of an Input or Output Number is none of the four that this terminal shows|use 1, 0.1, 0.01 or 0.001, as a 32-bit float, or if other terminals are meant, --warn P04|Output Number 321 `value_rate`: the scale 0.05 is none of 1, 0.1, 0.01 and 0.001; the nearest is 0.1
P05|Decimals|an Input or Output Number has more than 7 decimals|use 0 to 7|Output Number 321 `value_rate`: the number of decimals is 9, above 7
P07|NullId|a record has the ID 65535, which means no object|give it an ID from 0 to 65534; check the counts of the record before it|the record has the ID 65535, which means no object; a count in the record before it, Picture Graphic 390 at 2022, may be wrong
R01|NoWorkingSet|no object of the pool is a Working Set, type 0|add one|no object is a Working Set
R02|TwoWorkingSets|more than one object is a Working Set|keep one; designators of other sets belong in their own pools|Working Set 1: one Working Set too many
R03|Missing|an object names another that is not in the pool, or none (65535) where one is needed|add the object, or correct its number|Output Number 341 `tank_value`: font names object 104, which is not there
R04|WrongKind|an object names, itself or by a pointer, an object of a kind that is not allowed there|name an object of a kind that the line says is expected|Output String 322 `unit_rate`: font names Number Variable 200 `v_rate`, a kind that is not allowed there; expected Font Attributes
R05|TooDeep|objects include one another in a circle, or more than 32 deep|remove one of the inclusions|a circle of inclusions: Container 500 > Container 501 > Container 500
R06|MacroBytes|the bytes of a Macro end inside a command|complete the last command: one takes 8 bytes, but Change Child Position takes 9, and Change String Value 5 and its text, at least 8|Macro 13 `macro_hidden`: the bytes end inside a command
R07|MacroCommand|a Macro has a command that is not allowed there: Delete Object Pool, Select Input Object, ESC, or a function that is no command|remove the command|Macro 10 `macro_fold`: Delete Object Pool (B2) at byte 8 is not allowed in a macro
R08|MacroMissing|a macro entry or a command of a Macro names an object that is not in the pool|add the object, or correct its number; macros listed for events have IDs up to 255|Key 2002 `key_fold`: macro entry 0 (key press) names object 14, which is not there
R09|MacroKind|a macro entry names an object that is no Macro, or a command of a Macro an object of a kind that it does not change|name an object of a kind that the line says is expected|Macro 10 `macro_fold`: Hide/Show Object (A0) at byte 0 names Data Mask 1000 `main`, a kind that is not allowed there; expected Container
R10|MacroValue|a Change Attribute in a Macro has the number of an attribute that its object does not have|use a number of the object's kind|Macro 10 `macro_fold`: the command at byte 0 changes attribute 9, which Container 370 `sections` does not have
R11|MacroCircle|macros trigger each other in a circle, so that their events would never end|remove one of the macro entries, or of the commands that raise their events|macros trigger each other in a circle: Macro 1 > Macro 2 > 1
R12|OverBudget|an event or a macro can take more than 1000000 steps|use fewer levels of macros that trigger others; segyolant why says where the steps go|Container 100: event 4 (hide) can take more than 1000000 steps
W01|Replaced|a later record of the same kind has the same ID, so the first one is lost|give one of the two another number|Container 100 `box` is replaced by the record at 69
W02|Unused|no object names it: it is left over, or its number is mistyped where it is used|remove it, or correct the number; if the implement shows it by a command, --ignore 'Unused[ID]'|Number Variable 201 `rate`: no object names it
W03|TextTooWide|a text is wider than its field, so that it is cut off at the right|make the field wider, or the font or the text smaller|Output String 350 `in_label`: 32 characters of 8 pixels in a field of 200
W04|TextTooHigh|the characters are higher than their field|make the field higher, or the font smaller|Output String 300 `label`: characters of 12 pixels in a field of 8
W05|Outside|a child reaches out of the area of its mask, container, button or key|move or shrink the child; --size and --key-size set the areas of the terminal|Data Mask 1000: child 1, Output String 300 `label`, of 16x8 at 465,0 reaches out of its area of 480x480
W06|ExtraKeys|a Soft Key Mask has more keys than the terminal|use fewer keys; --keys sets those of the terminal|Soft Key Mask 4000: 65 keys, and the terminal has 64
W07|OtherKind|a later record of another kind has the same ID, so the first one is lost|give one of the two another number|Output String 325 `unit_speed`: Picture Graphic 325 at 45 has the same ID and replaces it; give one of them another number
W08|NoMeaning|a field has a number to which ISO 11783-6 gives no meaning|use a number that the line says is expected|Font Attributes 104 `font_input`: size 15; expected 0 to 14
W09|EmptyRange|the greatest number of a range is below the least, or for a needle or a bar not above it|exchange or correct the two|Input Number 309: the maximum 5 is not above the minimum 10
W10|OutOfRange|a value, or the target of a bar, is not in its range when the pool is uploaded|correct the value, its variable or the range|Input Number 309: the value 9 is not from 10 to 20
W11|NoItem|the value of an Input List is the index of none of its items|use an index of an item, or 255 for none|Input List 353 `mode`: value 4; expected an index below 3, or 255 for no item
W12|PictureBytes|the bytes of a Picture are not those of its pixels: too few, too many, or half a pair of a count and a byte|convert the picture again; check its width, height, format and bit 2 of its options|Picture Graphic 302: image data of 3 bytes; expected 4 for its pixels
W13|FewPoints|a Polygon has fewer than three points|add points, or use a Line|Output Polygon 374: number of points 2; expected at least 3
W14|PointOutside|a point of a Polygon is outside of its area|move the point, or make the area larger|Output Polygon 374: point 2 at 90,10 is outside of its area of 60x60
W15|ShortVariable|a String Variable is shorter than the Input String that enters it, so that long inputs are refused|give the variable as many bytes|Input String 350: String Variable 201 has 4 bytes; expected at least 10, the length of its texts
W16|NeverRaised|a macro entry lists an event that an object of its kind never has, so it never runs the macro|list an event of the kind|Data Mask 1000: macro entry 1 lists key press, an event that an object of its kind never has
W17|NoActiveMask|a Working Set has no active mask|name a Data Mask or an Alarm Mask|Working Set 0: active mask 65535, which is none; expected a Data Mask or an Alarm Mask
W18|NoDesignator|a Working Set has no child by which the operator knows it|add a picture or a text that fits a key|Working Set 0: no child; expected a designator, by which the operator knows it
W19|NoLanguage|a language code is not two small letters|use a code of ISO 639, such as en|Working Set 0: the bytes of language 0 are 00 01; expected two small letters, such as en
W20|InputThere|an Alarm Mask or a Key has an input or a button as a child, which is not allowed there|move it to a Data Mask|Key 2002 `key_fold`: child 1, Input Number 351 `in_rate`, is an input or a button, which is not allowed there
W21|NoCode|a Key or a Button has the code 0, which is for the terminal's own key for alarms|use a code from 1 to 255|Key 2002 `key_fold`: key code 0, which is for the terminal's own key for alarms; expected 1 to 255
W22|SameColour|a text has the colour of its background|change one of the two, or make the background transparent|Output String 322: its text cannot be seen: its background and Font Attributes 104 have the colour 1
W23|SameCode|two keys of a Soft Key Mask have the same code, so the implement cannot tell them apart by it|give each key a code of its own|Soft Key Mask 2000 `keys_work`: key 3, Key 2004 `key_right`, has the code 5 of an earlier key; expected one of its own
N01|Unread|the bytes from an offset on cannot be read, so that some rules are not judged|correct the fault of a record that is told before it|the bytes from here on cannot be read, so nothing is called missing or unused (..)
N02|UnknownTriggers|a macro ends inside a command, so that circles, costs and its commands are not judged|correct the macro that R06 MacroBytes names|a macro ends inside a command, so triggers are not known (..)
N03|UnknownCosts|macros trigger each other in a circle, so that costs are not judged|break the circle that R11 MacroCircle names|macros trigger each other in a circle, so costs are not known (..)
N04|PassedOver|records of types that this terminal does not have are passed over, so that unused objects are not listed|leave them out for this terminal; other terminals take them|records of types that this terminal does not have are passed over, so what they refer to is not known (..)";
