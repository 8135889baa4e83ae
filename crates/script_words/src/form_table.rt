//! The table of the words that begin a command.

ghost use Rattle.std.specs.Prelude.{◌≡◌, find, map, option_map};
ghost use Rattle.script_words.specs.Forms.{forms as all_forms, is_of, value_of};

use crate::words::is_word;

/// A word that begins a command, the form of its commands, an example, and what they do.
pub struct Form {
    /// The word.
    pub word: &'static str,
    /// The form of its commands. A word in capitals stands for a value, ` or ` joins two forms, and `..` stands for any number more.
    pub form: &'static str,
    /// A line of that form.
    pub example: &'static str,
    /// What its commands do or tell, for who sees the word for the first time.
    pub meaning: &'static str,
}

/// The words in the order in which `help` tells them.
const FORMS: &[Form] = &[
    Form {
        word: "fail",
        form: "fail ID SLC",
        example: "fail 2 0",
        meaning: "the link SLC of the set ID fails",
    },
    Form {
        word: "restore",
        form: "restore ID SLC",
        example: "restore 2 0",
        meaning: "the failed link is back; what else is marked stays",
    },
    Form {
        word: "block",
        form: "block ID SLC END",
        example: "block 2 0 b",
        meaning: "the end a or b of the link blocks it, as in a processor outage; a if none is named",
    },
    Form {
        word: "unblock",
        form: "unblock ID SLC END",
        example: "unblock 2 0 b",
        meaning: "the end blocks the link no longer",
    },
    Form {
        word: "inhibit",
        form: "inhibit ID SLC END",
        example: "inhibit 2 0 a",
        meaning: "the end a or b of the link keeps traffic off it, for maintenance; a if none is named",
    },
    Form {
        word: "uninhibit",
        form: "uninhibit ID SLC END",
        example: "uninhibit 2 0 a",
        meaning: "the end inhibits the link no longer",
    },
    Form {
        word: "point",
        form: "point add CODE KIND or point drop CODE or point CHANGE CODE END",
        example: "point fail 2-10-1",
        meaning: "a point comes, sep or stp, or goes; or each link of all its sets is changed by fail, restore, block, unblock, inhibit or uninhibit, where a is the end at the point",
    },
    Form {
        word: "pair",
        form: "pair CODE CODE",
        example: "pair 2-10-1 2-10-2",
        meaning: "two transfer points become mates",
    },
    Form {
        word: "unpair",
        form: "unpair CODE",
        example: "unpair 2-10-1",
        meaning: "the point and its mate are mates no longer",
    },
    Form {
        word: "set",
        form: "set add ID CODE CODE SLC SLC .. or set drop ID or set CHANGE ID END",
        example: "set fail 2",
        meaning: "a set comes, with its points a and b and its links, or goes; or each of its links is changed by fail, restore, block, unblock, inhibit or uninhibit",
    },
    Form {
        word: "link",
        form: "link add ID SLC or link drop ID SLC",
        example: "link add 2 1",
        meaning: "a link of the set comes, failed at first, or goes",
    },
    Form {
        word: "plan",
        form: "plan set CODE ROW ROW .. or plan drop CODE",
        example: "plan set 2-1-2 2-1-1:2:2-10-1 2-10-1:1:2-1-2",
        meaning: "the plan of the destination is set, or goes; a ROW is CODE:RANK:CLASSES of a point",
    },
    Form {
        word: "tfr",
        form: "tfr on or tfr off",
        example: "tfr off",
        meaning: "whether transfer-restricted messages are in use",
    },
    Form {
        word: "post",
        form: "post C SEQ EVENT",
        example: "post 1 1 fail 2 0",
        meaning: "an event of the collector C under its number SEQ; the last one again isn't taken twice",
    },
    Form {
        word: "open",
        form: "open",
        example: "open",
        meaning: "all that is accepted becomes the next version, and what it touches waits",
    },
    Form {
        word: "take",
        form: "take K",
        example: "take 0",
        meaning: "the first destination that waits is worked out, and the result kept in the slot K, 0 to 31",
    },
    Form {
        word: "give",
        form: "give K",
        example: "give 0",
        meaning: "the result in the slot K is given to the desk",
    },
    Form {
        word: "abandon",
        form: "abandon K",
        example: "abandon 0",
        meaning: "the destination of the result in the slot K waits again",
    },
    Form {
        word: "publish",
        form: "publish",
        example: "publish",
        meaning: "the next version is published, once all of it is worked out",
    },
    Form {
        word: "sync",
        form: "sync",
        example: "sync",
        meaning: "all that is accepted is worked out and published; questions are answered from what is published",
    },
    Form {
        word: "version",
        form: "version",
        example: "version",
        meaning: "which version is published, and how many events are accepted",
    },
    Form {
        word: "last",
        form: "last C",
        example: "last 0",
        meaning: "the last number of the collector C; 0 is that of plain lines",
    },
    Form {
        word: "who",
        form: "who",
        example: "who",
        meaning: "how many events came through each session",
    },
    Form {
        word: "show",
        form: "show or show down or show set ID or show point CODE or show plan X",
        example: "show down",
        meaning: "how large the network is; or each link that isn't available, as ID:SLC and f failed, ba or bb blocked, ia or ib inhibited, a or b being the end; or a set, a point or a plan",
    },
    Form {
        word: "statuses",
        form: "statuses X",
        example: "statuses 2-1-2",
        meaning: "how each point reaches the destination X",
    },
    Form {
        word: "status",
        form: "status Y X",
        example: "status 2-1-1 2-1-2",
        meaning: "whether the point Y reaches the destination X, and over what",
    },
    Form {
        word: "sls",
        form: "sls Y X",
        example: "sls 2-1-1 2-1-2",
        meaning: "the link, ID:SLC, of each of the sixteen signalling link selections from Y to X",
    },
    Form {
        word: "messages",
        form: "messages Y X",
        example: "messages 2-10-1 2-1-2",
        meaning: "what Y has told about X to which point: TFA allowed, TFR restricted, TFP prohibited",
    },
    Form {
        word: "octets",
        form: "octets Y Z X",
        example: "octets 2-10-1 2-1-1 2-1-2",
        meaning: "the octets of the message about X that Y has told Z",
    },
    Form {
        word: "why",
        form: "why Y X",
        example: "why 2-1-1 2-1-2",
        meaning: "each way that Y has to X, what stands against it, and which is used",
    },
    Form {
        word: "mend",
        form: "mend Y X or mend allowed Y X",
        example: "mend 2-1-1 2-1-2",
        meaning: "the fewest links to restore for Y to reach X, or to reach it allowed; marked as in show down",
    },
    Form {
        word: "remedy",
        form: "remedy Y X or remedy allowed Y X",
        example: "remedy allowed 2-1-1 2-1-2",
        meaning: "the commands that restore them, and which point gives each",
    },
    Form {
        word: "trace",
        form: "trace Y X S",
        example: "trace 2-1-1 2-1-2 0",
        meaning: "the way of the signalling link selection S, 0 to 15, from Y to X",
    },
    Form {
        word: "whatif",
        form: "whatif EVENT ; EVENT ..",
        example: "whatif set fail 2 ; inhibit 1 0 a",
        meaning: "which statuses these events would change; they aren't made",
    },
    Form {
        word: "reroutes",
        form: "reroutes EVENT ; EVENT ..",
        example: "reroutes point fail 2-10-1 ; restore 2 0",
        meaning: "what these events would move to other routes, take and bring back; they aren't made",
    },
    Form {
        word: "survey",
        form: "survey WHAT or survey WHAT EVENT ; EVENT ..",
        example: "survey sets",
        meaning: "WHAT is sets or points, and tells how many pairs of point and destination each would take if it failed alone; or down, and tells how many each set that is down would bring back if it alone were restored, with all marks of its links gone; after these events, if any",
    },
    Form {
        word: "warn",
        form: "warn",
        example: "warn",
        meaning: "what a planner should look at: rows and plans that are missing, points and sets that no plan uses, and what a single failure would take; route_desk explain NAME says what each means",
    },
    Form {
        word: "picture",
        form: "picture FILE or picture FILE X",
        example: "picture net.svg 2-1-2",
        meaning: "a picture of the network, or of the routes to X, into a file that ends in .svg, .dot or .gv",
    },
    Form {
        word: "save",
        form: "save FILE",
        example: "save net.toml",
        meaning: "the network after all accepted events into a file",
    },
    Form {
        word: "changes",
        form: "changes or changes N or changes WHICH or changes N WHICH",
        example: "changes 2",
        meaning: "what moved since the version before, or since version N, one of the last eight: Y/X is the point Y and the destination X, with its status or its route before and after; WHICH is lost, regained or moved, and tells those alone",
    },
    Form {
        word: "watch",
        form: "watch on or watch off",
        example: "watch on",
        meaning: "whether each publication tells what it moves",
    },
    Form {
        word: "audit",
        form: "audit",
        example: "audit",
        meaning: "whether each table is right",
    },
    Form {
        word: "help",
        form: "help or help WORD",
        example: "help status",
        meaning: "every word, or what a word does",
    },
    Form {
        word: "quit",
        form: "quit",
        example: "quit",
        meaning: "the script, or the session, ends here",
    },
];

/// The table: each word that begins a command, with the form of its commands, an example and what they do, and `help` and `quit` as the last.
pub fn forms() -> &'static [Form]
    ensures { map value_of result.now ≡ all_forms }
{
    FORMS
}

/// The first form of a list that is a word's.
fn find_among<'a>(list: &'a [Form], word: &[u8]) -> Option<&'a Form>
    ensures { option_map (λ f. value_of f.now) result ≡ find (is_of word.now) (map value_of list.entry.now) }
{
    let mut rest = list;
    while let Some((first, more)) = rest.split_first() {
        if is_word(word, first.word) {
            return Some(first);
        }
        rest = more;
    }
    None
}

/// The entry of a word in the table. `None` if it isn't there: then it is neither `help` nor `quit`, and no command begins with it.
pub fn form_of(word: &[u8]) -> Option<&'static Form>
    ensures { option_map (λ f. value_of f.now) result ≡ find (is_of word.now) all_forms }
{
    find_among(forms(), word)
}
