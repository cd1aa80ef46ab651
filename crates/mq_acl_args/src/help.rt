//! The texts of help, and of `--version`.

// A program can't hold the commit that it is of. Its file's checksum says that.
pub(crate) const VERSION: &str =
    "(mqr --version says of which commit it is, by which kit, and whether it is proved)";

pub(crate) const ABOUT: &str =
    "Answers questions about mosquitto's access lists, for all clients and topics";

pub(crate) const AFTER_HELP: &str = "\
An access list is a file in the form of mosquitto.conf(5)'s acl_file. An answer
is by the rules of mosquitto 2.0, for every client id that a broker can have,
every user name that it can have or none, and every topic. What clients may not
do is by who and test said of client ids without + and #, and of user names
without them or in the list; others may do no more, since no pattern line is for
them. The answer says so at its end. With --rules own the answer is by rules of
our own, and leaves out none. A file - is standard input.

Exit status:
  0  compare: both lists allow the same, or differ only in the other way than
     --only says. lint: no remark, or only on lines that deny nothing. reach:
     each subscription can receive something, or with --any nobody can. who:
     answered, or with --except nobody else may. why: answered, or with --may the
     client may. test: each line of EXPECTED holds
  1  the lists differ, lint has a remark, a subscription can receive nothing, or
     with --any somebody can receive something, somebody other than those of
     --except may, the client may not, or a line of EXPECTED doesn't hold
  2  the arguments aren't understood, an access list can't be opened, read or
     understood, EXPECTED can't be opened or read or expects nothing, a line of
     QUESTIONS asks nothing, a script can't be opened or read or has no command,
     or the steps don't suffice. compare and lint: mosquitto doesn't take a line
     of a list
  3  a write failed, or memory ran out

Example:
  mqroute-acl compare current.acl proposed.acl";

pub(crate) const OLD_HELP: &str = "The access list that is in force, or - for standard input";

pub(crate) const NEW_HELP: &str = "The access list to compare with it, or -";

pub(crate) const FILE_HELP: &str = "The access list, or - for standard input";

pub(crate) const FILES_HELP: &str = "The access lists; one of them may be - for standard input";

pub(crate) const CLIENT_HELP: &str = "The client id";

pub(crate) const TOPIC_HELP: &str = "The topic that is read or written";

pub(crate) const FILTER_HELP: &str = "The topic filter of the subscription; $share/NAME/FILTER too";

pub(crate) const USER_HELP: &str = "The user name of the client (none)";

pub(crate) const STEPS_HELP: &str = "Give up after so many steps (200,000,000: some ten seconds)";

pub(crate) const RULES_HELP: &str =
    "By whose rules lists are read, and decide: mosquitto for those of mosquitto 2.0, or own (mosquitto)";

pub(crate) const JSON_HELP: &str = "Write JSON, one object a line";

pub(crate) const PUBLISHES_HELP: &str =
    "Count the publishes of this script, or of standard input (-), that each is about at most";

pub(crate) const PLAN_HELP: &str =
    "Compare what OLD says of a topic with what NEW says of its new name by this plan (-)";

pub(crate) const COMPARE_ABOUT: &str = "Shows what one list allows and the other doesn't";

pub(crate) const COMPARE_AFTER_HELP: &str = "\
Each difference is shown with a topic, and with the line of each list that
decides it. The words for example stand before a topic where these lines have
wildcards, and so may decide about others too. All are listed: for the clients
without a user name, for those of each user name that has lines of its own, and
for all others, each pair of lines that decides. In a topic <level> is any level
that no line names and that doesn't begin with $, and <$level> any that does.
<client id> and <user> are any that no line names; at the front of a topic they
don't begin with $.

--only gained shows what the new list allows and the old one doesn't, --only lost
the opposite, and the status is of these alone.

With --plan PLAN a client may by NEW read or write the new name of a topic exactly
where it may by OLD the topic, or there is a difference. A topic is shown as OLD ->
NEW, and the line of the plan that renames it. Topics without a new name are left
out. A plan has lines FROM -> TO, keep FROM and none FROM; the first that matches a
topic decides. In FROM a level +hall has a name, and TO uses it; a # at the end of
both stands for the rest. It is answered by --rules own alone.

--script SCRIPT counts how many publishes of the script a difference is about at
most: those to topics that the filters of its lines match, where %c and %u match
any level, and by mosquitto's rules several. Who publishes and who subscribes
doesn't count.

Long lists that overlap in many ways can take long. A step is a look at one line
for one question, or as much work as that takes. When the steps are spent, there
is no answer.

With --json each difference is an object with
  access    read or write
  change    gained or lost
  client    the client id
  user      its user name, or null
  topic     the topic
  placeholders
            which of these, and of the levels of the topic, stand for others
  old, new  the line that decides it, with file, line and text; or null, where
            no line allows it
With --json and --script it has too
  publishes  how many publishes of the script it is about at most
  topics     how many topics these are to
With --json and --plan it has too
  new_topic  the new name of the topic
  rule       the line of the plan that decides about the topic, with file, line
             and text; or null, where none does";

pub(crate) const WHY_ABOUT: &str =
    "Shows whether a client may read and write a topic, and by which line";

pub(crate) const WHY_AFTER_HELP: &str = "\
Both are shown. With --may read or --may write the status is that of one of them.
A line says so where the list has no line for the user name, or where there is
none and CLIENT is a user name that the list has lines for.

With --json one object is about reading and one about writing, each with
  access   read or write
  allowed  true or false
  deny     the first line that denies it, with file, line and text; or null
  grant    the first line that grants it, or null
  refused  true, and only there where mosquitto refuses it whatever the list says

A question of --questions is an object in a line, such as
  {\"client\":\"meter-17\",\"user\":\"meter\",\"topic\":\"plant/1/energy\",\"access\":\"write\"}
without user where the client has none. Its answer is the one object for that
access, in the order of the questions. Blank lines are passed by. Where a line
asks nothing, none is answered";

pub(crate) const LINT_ABOUT: &str = "Lists lines that are faulty, odd or without effect";

pub(crate) const LINT_AFTER_HELP: &str = "\
The remarks on each file stand in the order of the files, each with the text of
its line. If one of them can't be read, nothing is written. A needless line is
one without which the list allows the same. A line that denies nothing that a
line grants may be there as a guard: alone, such lines don't make the status 1.
If mosquitto doesn't take a line, it says what a reload of the list does.
If there is nothing to remark on a file, it says so.

A step is a look at one line for one question, or as much work as that takes.
When the steps are spent, there is no answer. Each file has as many.

With --json each remark is an object with
  file, line, text  the line
  kind              fault, no mark, indented comment, tab, hidden characters,
                    repeats, denies nothing or needless; or empty, of a list
                    without a topic or pattern line (line and text are null);
                    or not taken, of a line that mosquitto doesn't take, and of
                    the list (line and text are null)
  other             the number of the line that it repeats, or that makes it
                    needless; or null
  words             the remark in words";

pub(crate) const SUBSCRIBER_HELP: &str = "The client id of the subscriber";

pub(crate) const ANY_HELP: &str =
    "Ask about clients with any id; %c and %u as levels are the client's own id and user name";

pub(crate) const SCRIPT_HELP: &str =
    "Ask about all subscriptions of this script, or of standard input (-)";

pub(crate) const REACH_ABOUT: &str =
    "Shows whether a subscription, or which of a script, can receive nothing";

pub(crate) const REACH_AFTER_HELP: &str = "\
A client receives what its filter matches and the list lets it read. Shown is a
topic that a subscription to FILTER can receive, or that there is none.

With --any FILTER, in place of CLIENT and FILTER, the answer is about all client
ids at once: if it is nothing, none of them receives anything, and the status is
0. A user that no line of the list is for is refused. A step is a look at one line for one question, or
as much work as that takes. When the steps are spent, there is no answer.

--script SCRIPT, in place of CLIENT and FILTER, lists those subscriptions of the
script that can receive nothing: line, client, user name and filter. The user
name is that of the client as it subscribes; each other that its session has
while it keeps the subscription counts too. A subscribe that a broker refuses
doesn't count. acl lines of the script are ignored. Invalid lines are skipped and
counted; a script without a command is refused.

With --json the answer is an object with
  filter  the subscription
  topic   a topic that it can be sent, or null
With --json and --any it has too
  client        a client id that can be sent it, or null
  line          the line that allows it, with file, line and text, or null
  placeholders  which of client and the levels of the topic stand for others
  user          the user name, or null
With --json and --script each subscription that can receive nothing is an object
with
  file, line  the script, and the line of its subscribe
  client      the client id
  user        its user name as it subscribes, or null
  filter      the subscription
and the last object has
  receive_nothing     how many they are
  subscriptions       how many subscriptions the script has
  invalid_lines       how many of its lines are not commands
  first_invalid_line  the number of the first of these lines, or null";

pub(crate) const WANTED_HELP: &str =
    "The topic filter; %c and %u as its levels are the client's own id and user name";

pub(crate) const ACCESS_HELP: &str = "Show reading or writing alone: read or write (both)";

pub(crate) const QUESTIONS_HELP: &str =
    "Answer each question of this file instead, as JSON: one a line, as below";

pub(crate) const MAY_HELP: &str =
    "The status is 0 where the client may, and 1 where it may not: read or write";

pub(crate) const WAY_HELP: &str = "Show differences of this way alone: gained or lost";

pub(crate) const EXCEPT_HELP: &str =
    "Leave out these users, between commas: - no user name, * users without lines";

pub(crate) const WHO_ABOUT: &str = "Shows who may read and write the topics that a filter matches";

pub(crate) const WHO_AFTER_HELP: &str = "\
There is an answer for the clients without a user name, for those of each user
name that has lines of its own, and for all others: they may every topic that the
filter matches; or, for each line that decides, a topic that they may, and what
deny lines take away. Those that may nothing are not listed.

--except leaves out those users, and the status is 1 if anybody else may.

--script SCRIPT counts how many publishes of the script each answer is about at
most: those to topics that FILTER and the filter of the line match, where %c and
%u match any level, and by mosquitto's rules several. Who publishes and who
subscribes doesn't count.

A step is a look at one line for one question, or as much work as that takes.
When the steps are spent, there is no answer.

With --json each is an object with
  access   read or write
  client   the client id
  every    whether these clients may every topic that the filter matches
  line     the line that allows it, with file, line and text
  not      what these clients may not, each an object with client, line, topic
           and user; line is null where no line allows it
  placeholders
           which of client, user and the levels of the topic stand for others
  topic    the topic
  user     its user name, or null
and behind them one for each direction in which FILTER names topics that
mosquitto refuses whatever the list says
  refused    read or write
and last, by mosquitto's rules, one with
  limited_to  for which client ids and user names the answer is
With --json and --script each has too
  publishes  how many publishes of the script it is about at most
  topics     how many topics these are to";

pub(crate) const EXPECTED_HELP: &str = "The file of what is expected, or - for standard input";

pub(crate) const LISTS_HELP: &str =
    "The access lists to test, or - for one of them (those that acl lines of EXPECTED name)";

pub(crate) const JUNIT_HELP: &str =
    "Write what holds and what doesn't to this file too, in JUnit's XML";

pub(crate) const TEST_ABOUT: &str = "Tests access lists against what is expected of them";

pub(crate) const TEST_AFTER_HELP: &str = "\
Each line of EXPECTED says one thing:
  acl FILE                        the lines behind it speak of this list
  WHO may ACCESS FILTER           they may every topic that FILTER matches
  WHO may some ACCESS FILTER      they may one topic at least
  WHO may not ACCESS FILTER       they may none
  anyone .. FILTER except A, B    of all but these
  at most FILE                    the list allows nothing that this one doesn't
  at least FILE                   it allows all that this one does
WHO is a user name, anonymous, others (without lines of their own) or anyone;
ACCESS is read, write or readwrite. In FILTER %c and %u, as whole levels, are the
client's own id and user name. A line that begins with # is a comment.

Lines that don't hold are shown, each with a client and a topic for which it
doesn't and the line of the list that decides there; then how many hold. A line
with a fault doesn't hold, nor does one about a user without lines.

With LISTs, the whole is tested of each, and acl lines are skipped. Files that
EXPECTED names are found from the folder that the program runs in, and - is none
of them.

A step is a look at one line for one question, or as much work as that takes.
When the steps are spent, there is no answer. Each line of EXPECTED has as many.

With --json each line of EXPECTED that says something is an object with
  file, line, text  the line
  list              the list that it is tested of, or null
  holds             true or false
  kind              holds, fails, differs, none may, unnamed, refused, fault,
                    long level, part of a level or no list
  words             why it doesn't hold, or null
  access, client, user, topic, placeholders
                    the client and the topic for which it doesn't, as compare
                    has them; or null, and no placeholders
  decided, other    the line that decides there in the list, and in the one
                    that it is compared with, with file, line and text; or null
and behind them an object has
  expectations      how many such lines there are
  hold              how many of them hold
and last, by mosquitto's rules, one with
  limited_to  for which client ids and user names the answer is";
