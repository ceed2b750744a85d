// What the calls are, for a person.

const LINES: [&str; 15] = [
    "dossier [FILE]: calls, one to a line, from FILE or standard input; an answer for each",
    "  start | new D OWNER | sign USER AGREEMENT | load D IMAGE | save D [ROOM] | clipboard [ROOM] | log [ROOM]",
    "  ask IMAGE ROLE USER TIME PATH NAME ACTION [ROOM]",
    "  read-node, add-node, delete-branch, copy-branch, cut-branch, paste-branch: D ROLE USER TIME PATH",
    "  read-attribute, delete-attribute, copy-attribute, cut-attribute, paste-attribute: D ROLE USER TIME PATH NAME",
    "  add-attribute, change-value: D ROLE USER TIME PATH NAME VALUE",
    "  add-permission, delete-permission, delegate: D ROLE USER TIME PATH NAME PERMISSION",
    "  add-image D ROLE USER TIME PATH IMAGE",
    "  request NUMBER D ROLE USER TIME PATH NAME VALUE PERMISSION [IMAGE]",
    "  store D FILE | show D | help",
    "PATH is / or steps as 2.1.4; NAME 0 is the node itself; VALUE is whole:N or reading:H, H eight hex digits",
    "PERMISSION is ROLE ACTION USER FIRST LAST MESSAGES AGREEMENTS; IMAGE is hex, - for no bytes, or @FILE",
    "refused N: 1 bad operand, 2 the root, 3 absent, 4 name taken, 5 clipboard, 6 not granted, 7 not covered, 8 clash,",
    "  9 ROOM too short, 10 unsigned, 11 log full, 12 bad image, with its record; no room for more:",
    "  13 nodes, 14 depth, 15 children, 16 attributes, 17 permissions",
];

pub fn help(rt: &impl Print) {
    for line in LINES {
        let _ = rt.println(line);
    }
}
